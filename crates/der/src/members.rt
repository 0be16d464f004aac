// Members of an element by their order. A member that is missing is a head that is not sound and has no contents.
ghost use Rattle.std.specs.Prelude.{◌≡◌};
ghost use Rattle.der.specs.Members.{missing as no_member, first_in, after as member_after, second_in, past as member_past, inside_tag};
ghost use Rattle.der.specs.Elements.{is_empty};

use crate::header::{Head, broken_head, head_at};

// No element, in a container that ends at `end`.
pub fn missing(end: usize) -> Head
    ensures { result ≡ no_member end }
{
    broken_head(end, end)
}

// Whether that is what a search found: every element has an octet at least.
pub fn is_none(h: Head) -> bool
    ensures { result ≡ is_empty h }
{
    h.end <= h.at
}

// The first member of an element.
pub fn first_in(s: &[u8], h: Head) -> Head
    ensures { result ≡ first_in s.now h }
{
    head_at(s, h.body, h.end)
}

// The member after h in an element that ends at `end`.
pub fn after(s: &[u8], h: Head, end: usize) -> Head
    ensures { result ≡ member_after s.now h end }
{
    head_at(s, h.end, end)
}

// The second member of an element.
pub fn second_in(s: &[u8], h: Head) -> Head
    ensures { result ≡ second_in s.now h }
{
    after(s, first_in(s, h), h.end)
}

// The member that stands at h or, where h is an optional field with this tag, after it.
pub fn past(tag: u8, s: &[u8], h: Head, end: usize) -> Head
    ensures { result ≡ member_past tag s.now h end }
{
    if h.tag == tag {
        return after(s, h, end);
    }
    h
}

// The first member of h, if h has this tag.
pub fn inside_tag(tag: u8, s: &[u8], h: Head, end: usize) -> Head
    ensures { result ≡ inside_tag tag s.now h end }
{
    if h.tag == tag {
        return first_in(s, h);
    }
    missing(end)
}

// The elements of a stretch, and the members of an element, one after the other.
ghost use Rattle.std.specs.Prelude.{◌≡◌};
ghost use Rattle.std.specs.Iterator.{YieldsFirst, item_count};
ghost use Rattle.der.specs.Header.{children_of};
ghost use Rattle.der.specs.Members.{members_in};
ghost use Rattle.der.specs.Children.{children_left};

use crate::header::{Head, head_at};

#[derive(Clone, Copy)]
pub struct Children<'a> {
    octets: &'a [u8],
    at: usize,
    end: usize,
}

impl Iterator for Children<'_> {
    type Item = Head;

    ghost next_gives = { YieldsFirst children_left };

    ghost remaining = { item_count children_left };

    fn next(&mut self) -> Option<Head> {
        if self.at < self.end {
            let child = head_at(self.octets, self.at, self.end);
            self.at = child.end;
            return Some(child);
        }
        None
    }
}

// The elements from place `at` to `end`.
pub fn children_of(s: &[u8], at: usize, end: usize) -> Children<'_>
    ensures whole { result ≡ record { octets = s.entry; at = at; end = end } }
    ensures left { children_left result ≡ children_of s.now at end }
{
    Children {
        octets: s,
        at: at,
        end: end,
    }
}

// The members of an element.
pub fn members_in(s: &[u8], h: Head) -> Children<'_>
    ensures whole { result ≡ record { octets = s.entry; at = h.body; end = h.end } }
    ensures left { children_left result ≡ members_in s.now h }
{
    children_of(s, h.body, h.end)
}

// The tests of one attribute.
ghost use Rattle.std.specs.Prelude.{◌≡◌, Bool};
ghost use Rattle.subjects.specs.Texts.{says_text, is_other, is_other_country, is_other_organization, is_other_state};

use crate::types::{arc_of, attribute_value};
use der::Head;

// Whether an attribute's value is this text, as a PrintableString or, where that is allowed, as a UTF8String.
fn says_text(s: &[u8], h: Head, utf8: bool, text: &[u8]) -> bool
    ensures { result ≡ says_text s.now h utf8 text.now }
{
    let value = attribute_value(s, h);
    let tag = value.tag;
    if (tag == 19) | (utf8 & (tag == 12)) {
        return der::contents_are(s, value, text);
    }
    false
}

// Whether it is an attribute with this arc that says another text.
fn is_other(s: &[u8], h: Head, arc: u8, utf8: bool, text: &[u8]) -> bool
    ensures { result ≡ is_other s.now h arc utf8 text.now }
{
    if arc_of(s, h) == arc {
        return !says_text(s, h, utf8, text);
    }
    false
}

// Rule 115.
pub fn is_other_country(s: &[u8], h: Head) -> bool
    ensures { result ≡ is_other_country s.now h }
{
    is_other(s, h, 6, false, b"US")
}

// Rule 117. Not every profile takes a UTF8String.
pub fn is_other_organization(s: &[u8], h: Head, utf8: bool) -> bool
    ensures { result ≡ is_other_organization utf8 s.now h }
{
    is_other(s, h, 10, utf8, b"U.S. Government")
}

// Rule 119.
pub fn is_other_state(s: &[u8], h: Head) -> bool
    ensures { result ≡ is_other_state s.now h }
{
    is_other(s, h, 8, true, b"District of Columbia")
}

// What elements say, octet by octet: the octets of a text, or those of another element, perhaps of another certificate.
ghost use Rattle.std.specs.Prelude.{◌≡◌};
ghost use Rattle.der.specs.Comparing.{contents_are, first_is, octets_are, same_contents, same_element};

use crate::header::Head;
use crate::members::first_in;

pub fn contents_are(s: &[u8], h: Head, text: &[u8]) -> bool
    ensures { result ≡ contents_are s.now h text.now }
{
    let body = h.body;
    octets::equals(s, body, octets::minus(h.end, body), text)
}

// Whether the first member of an element says a text: where it is an OBJECT IDENTIFIER, which one it is.
pub fn first_is(s: &[u8], h: Head, text: &[u8]) -> bool
    ensures { result ≡ first_is s.now h text.now }
{
    contents_are(s, first_in(s, h), text)
}

// Header and contents.
pub fn octets_are(s: &[u8], h: Head, text: &[u8]) -> bool
    ensures { result ≡ octets_are s.now h text.now }
{
    let at = h.at;
    octets::equals(s, at, octets::minus(h.end, at), text)
}

pub fn same_contents(s: &[u8], a: Head, t: &[u8], b: Head) -> bool
    ensures { result ≡ same_contents s.now a t.now b }
{
    let n = octets::minus(a.end, a.body);
    let m = octets::minus(b.end, b.body);
    octets::same_stretch(s, a.body, n, t, b.body, m)
}

// Header and contents.
pub fn same_element(s: &[u8], a: Head, t: &[u8], b: Head) -> bool
    ensures { result ≡ same_element s.now a t.now b }
{
    let n = octets::minus(a.end, a.at);
    let m = octets::minus(b.end, b.at);
    octets::same_stretch(s, a.at, n, t, b.at, m)
}

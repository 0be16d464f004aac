// The universal types' rules on form and contents (X.690, 8.2 to 8.19 and 11). The contents test goes by the
// type's number alone, so that it also serves for a type under an implicit tag.
ghost use Rattle.std.specs.Prelude.{◌≡◌, ◌+◌, ◌%◌, ◌^◌, eqb};
ghost use Rattle.octets.specs.Octets.{octets_from};
ghost use Rattle.der.specs.Contents.{constructed, holds_elements, boolean_ok, integer_ok, bits_ok, oid_ok, primitive_ok, universal_ok, element_ok};

use crate::header::Head;

pub fn is_constructed(tag: u8) -> bool
    ensures { result ≡ constructed tag }
{
    !(tag / 32 % 2 == 0)
}

// Whether the universal type with this number holds elements.
pub fn holds_elements(number: u8) -> bool
    ensures { result ≡ holds_elements number }
{
    match number {
        // SEQUENCE
        16 => true,
        // SET
        17 => true,
        // EXTERNAL, EMBEDDED PDV, CHARACTER STRING
        8 | 11 | 29 => true,
        _ => false,
    }
}

fn boolean_ok(s: &[u8], body: usize, n: usize) -> bool
    ensures { result ≡ boolean_ok (octets_from s.now body n) }
{
    let b = octets::octet(s, body);
    (n == 1) & ((b == 0) | (b == 255))
}

fn integer_ok(s: &[u8], body: usize, n: usize) -> bool
    ensures { result ≡ integer_ok (octets_from s.now body n) }
{
    let a = octets::octet(s, body);
    let b = octets::octet_past(s, body, 1);
    !(n == 0) & ((n == 1) | !(((a == 0) & (b < 128)) | ((a == 255) & (128 <= b))))
}

// Whether the last `unused` bits of b are 0.
fn low_zero(b: u8, unused: u8) -> bool
    ensures { result ≡ eqb (b % 2 ^ unused) 0 }
{
    if unused < 8 {
        b % (1u8 << unused) == 0
    } else {
        b == 0
    }
}

fn bits_ok(s: &[u8], body: usize, n: usize) -> bool
    ensures { result ≡ bits_ok (octets_from s.now body n) }
{
    let unused = octets::octet(s, body);
    let last = octets::octet_past(s, body, octets::minus(n, 1));
    !(n == 0) & ((unused < 8) & ((!(n == 1) | (unused == 0)) & low_zero(last, unused)))
}

fn oid_ok(s: &[u8], body: usize, n: usize) -> bool
    ensures { result ≡ oid_ok (octets_from s.now body n) }
{
    if n == 0 {
        return false;
    }
    let mut fresh = true;
    for k in 0..n {
        let b = octets::octet_past(s, body, k);
        let bad = fresh & (b == 128);
        if bad {
            return false;
        }
        fresh = b < 128;
    }
    fresh
}

// Whether n octets from place `body` on may be the contents of the universal type with this number, which holds no
// elements.
pub fn primitive_ok(s: &[u8], number: u8, body: usize, n: usize) -> bool
    ensures { result ≡ primitive_ok number (octets_from s.now body n) }
{
    match number {
        1 => boolean_ok(s, body, n),
        2 | 10 => integer_ok(s, body, n),
        3 => bits_ok(s, body, n),
        5 => n == 0,
        6 => oid_ok(s, body, n),
        _ => !holds_elements(number),
    }
}

// Whether a universal tag's form and contents are kept.
fn universal_ok(s: &[u8], tag: u8, body: usize, n: usize) -> bool
    ensures { result ≡ universal_ok tag (octets_from s.now body n) }
{
    if is_constructed(tag) {
        return holds_elements(tag % 32);
    }
    primitive_ok(s, tag % 32, body, n)
}

// Whether an element's header is sound and its universal type, if it has one, is kept.
pub fn element_ok(s: &[u8], h: Head) -> bool
    ensures { result ≡ element_ok s.now h }
{
    let tag = h.tag;
    let body = h.body;
    if h.sound {
        if tag < 64 {
            return universal_ok(s, tag, body, octets::minus(h.end, body));
        }
        return true;
    }
    false
}

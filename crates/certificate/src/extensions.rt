// The extensions of a certificate (RFC 5280, 4.1.2.9), and their slots in document 01's table.
ghost use Rattle.std.specs.Prelude.{◌≡◌};
ghost use Rattle.octets.specs.Octets.{octets_from};
ghost use Rattle.certificate.specs.Extensions.{extension_of, slot_for, slot_of, is_period, same_identifier, seen_before};
ghost use Rattle.certificate.specs.Workings.Slots.{slot_by};

use der::Head;

#[derive(Clone, Copy)]
pub struct Extension {
    // the Extension itself
    pub place: Head,
    pub critical: bool,
    // the OCTET STRING
    pub value: Head,
}

// The parts of an Extension. `critical` has no other value than TRUE once a certificate is accepted.
pub fn extension_of(s: &[u8], h: Head) -> Extension
    ensures { result ≡ extension_of s.now h }
{
    let second = der::second_in(s, h);
    Extension {
        place: h,
        critical: second.tag == 0x01,
        value: der::past(0x01, s, second, h.end),
    }
}

// The slot of 2.5.29.n.
fn slot_by(n: u8) -> usize
    ensures { result ≡ slot_by n }
{
    match n {
        35 => 1,
        19 => 2,
        14 => 3,
        15 => 4,
        37 => 5,
        32 => 6,
        17 => 7,
        31 => 9,
        30 => 11,
        _ => 0,
    }
}

// The slot of the identifier whose contents are the n octets from `body` on. Most have three, of which the first two
// are the same.
fn slot_for(s: &[u8], body: usize, n: usize) -> usize
    ensures { result ≡ slot_for (octets_from s.now body n) }
{
    if n == 3 {
        let a = octets::octet(s, body);
        let b = octets::octet_past(s, body, 1);
        if (a == 0x55) & (b == 0x1D) {
            return slot_by(octets::octet_past(s, body, 2));
        }
        return 0;
    }
    if octets::equals(s, body, n, b"\x2B\x06\x01\x05\x05\x07\x01\x01") {
        return 8;
    }
    if octets::equals(s, body, n, b"\x2B\x06\x01\x05\x05\x07\x30\x01\x05") {
        return 10;
    }
    0
}

// The slot of an Extension, 0 if the table does not have it.
pub fn slot_of(s: &[u8], h: Head) -> usize
    ensures { result ≡ slot_of s.now h }
{
    let i = der::first_in(s, h);
    slot_for(s, i.body, octets::minus(i.end, i.body))
}

// Whether an Extension is the private key usage period, which rule 362 excepts.
pub fn is_period(s: &[u8], h: Head) -> bool
    ensures { result ≡ is_period s.now h }
{
    der::first_is(s, h, b"\x55\x1D\x10")
}

// Whether two Extensions have one identifier.
pub fn same_identifier(s: &[u8], a: Head, b: Head) -> bool
    ensures { result ≡ same_identifier s.now a b }
{
    der::same_contents(s, der::first_in(s, a), s, der::first_in(s, b))
}

// Whether an Extension before h, in a list that starts at `from`, has its identifier (rule 361).
pub fn seen_before(s: &[u8], from: usize, h: Head) -> bool
    ensures { result ≡ seen_before s.now from h }
{
    der::children_of(s, from, h.at).any(|e| same_identifier(s, e, h))
}

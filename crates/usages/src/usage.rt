// The bits of key usage. The first contents octet says how many bits are unused, and bit 0 is the high bit of the octet
// after it.
ghost use Rattle.std.specs.Prelude.{◌≡◌, cond, not, [], ◌∷◌, ◌+◌, ◌-◌, ◌<◌};
ghost use Rattle.octets.specs.Octets.{octets_from};
ghost use Rattle.profiles.specs.Values.{digital_signature, non_repudiation};
ghost use Rattle.usages.specs.Usage.{bit_octets, bit_at, any_below, usage_of, signs_for_authority, other_bit, other_bits, signs_alone, bits_in};
ghost use Rattle.usages.specs.Workings.Usage.{any_set, odd_alone};

use der::Head;

// The numbers of bits (RFC 5280, 4.2.1.3).
const DIGITAL_SIGNATURE: u8 = 0;

const NON_REPUDIATION: u8 = 1;

const KEY_CERT_SIGN: u8 = 5;

const CRL_SIGN: u8 = 6;

// Whether the bit of this number is set.
fn has_bit(s: &[u8], v: Head, number: u8) -> bool
    requires { number < 8 }
    ensures { result ≡ bit_at (usage_of s.now v) number }
{
    let body = v.body;
    let n = octets::minus(v.end, body);
    let bits = octets::octet_past(s, body, 1);
    (1 < n) & octets::bit(u64::from(bits), 7 - number)
}

// Rule 404: whether digitalSignature is set.
pub fn signs(s: &[u8], v: Head) -> bool
    ensures { result ≡ bit_at (usage_of s.now v) digital_signature }
{
    has_bit(s, v, DIGITAL_SIGNATURE)
}

// Rule 422: whether keyCertSign and cRLSign are set.
pub fn signs_for_authority(s: &[u8], v: Head) -> bool
    ensures { result ≡ signs_for_authority (usage_of s.now v) }
{
    has_bit(s, v, KEY_CERT_SIGN) & has_bit(s, v, CRL_SIGN)
}

// Whether the last bit of a is set, and that of b is not.
fn odd_alone(a: u8, b: u8) -> bool
    ensures { result ≡ odd_alone a b }
{
    !(b % 2 == 1) & (a % 2 == 1)
}

// Whether the first octet of bits has one, besides bit 0, that is not in `allowed`.
fn other_in_first(bits: u8, allowed: u8) -> bool
    ensures { result ≡ any_below (other_bit (bits ∷ []) (bits_in allowed)) 8 }
{
    odd_alone(bits, allowed)
        | (odd_alone(bits / 2, allowed / 2)
            | (odd_alone(bits / 4, allowed / 4)
                | (odd_alone(bits / 8, allowed / 8)
                    | (odd_alone(bits / 16, allowed / 16)
                        | (odd_alone(bits / 32, allowed / 32)
                            | odd_alone(bits / 64, allowed / 64))))))
}

// Whether a bit is set in an octet after the first two of the n from place `body` on.
fn any_later(s: &[u8], body: usize, n: usize) -> bool
    ensures { result ≡ any_set (octets_from s.now (body + 2) (n - 2)) }
{
    octets::octets_from(s, body.saturating_add(2), octets::minus(n, 2)).any(|b| b != 0)
}

// Whether the BIT STRING with n contents octets from place `body` on has a bit that may not be set.
fn other_bits(s: &[u8], body: usize, n: usize, allowed: u8) -> bool
    ensures { result ≡ other_bits (bit_octets (octets_from s.now body n)) (bits_in allowed) }
{
    if n < 2 {
        return false;
    }
    if other_in_first(octets::octet_past(s, body, 1), allowed) {
        return true;
    }
    any_later(s, body, n)
}

// Rule 405: whether a bit is set besides digitalSignature and those that are set in `allowed`.
pub fn other_usage(s: &[u8], v: Head, allowed: u8) -> bool
    ensures { result ≡ other_bits (usage_of s.now v) (bits_in allowed) }
{
    let body = v.body;
    other_bits(s, body, octets::minus(v.end, body), allowed)
}

// Whether nonRepudiation is set.
fn lasts(s: &[u8], v: Head) -> bool
    ensures { result ≡ bit_at (usage_of s.now v) non_repudiation }
{
    has_bit(s, v, NON_REPUDIATION)
}

// Whether a bit is as asked.
fn as_asked(bit: bool, asked: bool) -> bool
    ensures { result ≡ cond asked bit (not bit) }
{
    if asked { bit } else { !bit }
}

// Rule 502: whether digitalSignature is set, with nonRepudiation (of weight 0x40 in its octet) or without, and nothing else.
pub fn signs_alone(s: &[u8], v: Head, lasting: bool) -> bool
    ensures { result ≡ signs_alone (usage_of s.now v) lasting }
{
    signs(s, v) & (as_asked(lasts(s, v), lasting) & !other_usage(s, v, 0x40))
}

// How many bits a number has, by its octets from the first that is not 0 on.
ghost use Rattle.std.specs.Prelude.{◌≡◌, ◌<◌, ◌^◌, ltb};
ghost use Rattle.numbers.specs.Numbers.{number, has_bits, modulus_ok, long_modulus};

use crate::leading::lead;

// 2 to the power e, for e below 8.
fn power(e: u16) -> u16
    requires { e < 8 }
    ensures { result ≡ 2 ^ e }
{
    1 << e
}

// Whether the number is below 2^k.
pub fn below(s: &[u8], body: usize, end: usize, k: u16) -> bool
    ensures { result ≡ ltb (number s.now body end) (2 ^ k) }
{
    let at = lead(s, body, end);
    let n = octets::minus(end, at);
    let q = (k / 8) as usize;
    if n <= q {
        return true;
    }
    if n == q + 1 {
        return (octets::octet(s, at) as u16) < power(k % 8);
    }
    false
}

// Whether the number has exactly k bits.
pub fn has_bits(s: &[u8], body: usize, end: usize, k: u16) -> bool
    ensures { result ≡ has_bits k (number s.now body end) }
{
    if 0 < k {
        return !below(s, body, end, k - 1) & below(s, body, end, k);
    }
    false
}

// Rule 205.
pub fn modulus_ok(s: &[u8], body: usize, end: usize) -> bool
    ensures { result ≡ modulus_ok (number s.now body end) }
{
    has_bits(s, body, end, 2048) | (has_bits(s, body, end, 3072) | has_bits(s, body, end, 4096))
}

// Rule 208.
pub fn long_modulus(s: &[u8], body: usize, end: usize) -> bool
    ensures { result ≡ long_modulus (number s.now body end) }
{
    !below(s, body, end, 2047)
}

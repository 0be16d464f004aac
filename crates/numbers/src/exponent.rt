// The exponent of an RSA key.
ghost use Rattle.std.specs.Prelude.{◌≡◌, ◌-◌, ◌^◌, ltb};
ghost use Rattle.octets.specs.Octets.{octets_from};
ghost use Rattle.numbers.specs.Numbers.{number, is_odd, exponent_ok};
ghost use Rattle.numbers.specs.Workings.Leading.{all_ones};

use crate::counting::at_least;
use crate::leading::lead;

pub fn odd(s: &[u8], body: usize, end: usize) -> bool
    ensures { result ≡ is_odd (number s.now body end) }
{
    if body < end {
        return octets::octet(s, end - 1) % 2 == 1;
    }
    false
}

// Whether every octet from at to end is 255.
fn all_ones(s: &[u8], at: usize, end: usize) -> bool
    ensures { result ≡ all_ones (octets_from s.now at (end - at)) }
{
    octets::octets_from(s, at, octets::minus(end, at)).all(|b| b == 255)
}

// Whether the number is below 2^256 - 1.
fn below_all_ones(s: &[u8], body: usize, end: usize) -> bool
    ensures { result ≡ ltb (number s.now body end) (2 ^ 256 - 1) }
{
    let at = lead(s, body, end);
    let n = octets::minus(end, at);
    if n < 32 {
        return true;
    }
    if n == 32 {
        return !all_ones(s, at, end);
    }
    false
}

// Rule 206.
pub fn exponent_ok(s: &[u8], body: usize, end: usize) -> bool
    ensures { result ≡ exponent_ok (number s.now body end) }
{
    odd(s, body, end) & (at_least(s, body, end, 65537) & below_all_ones(s, body, end))
}

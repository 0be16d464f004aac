// Rule 207's test: one residue for each product of primes, four octets at a time and without a division for each, and the
// residues of that for the primes in it.
ghost use Rattle.std.specs.Prelude.{◌≡◌, true, ◌%◌, ◌<◌, ◌≤◌, ◌^◌};
ghost use Rattle.numbers.specs.Numbers.{number};
ghost use Rattle.primes.specs.Primes.{primes_below, free_of};
ghost use Rattle.primes.specs.Workings.Rows.{rows_ok, step_of};

use crate::table::{PRIMES, PRODUCTS};
use crate::words::word_at;
use numbers::small;

// One word more: no division, and no more than 64 bits.
fn step(r: u64, a: u64, b: u64, w: u64) -> u64
    requires { (a < 2 ^ 31) × (b < 2 ^ 31) × (w < 2 ^ 32) }
    ensures { result ≡ step_of r a b w }
{
    r / 4294967296 * b + r % 4294967296 * a + w
}

// The number of the octets from body to end modulo m.
fn residue(s: &[u8], body: usize, end: usize, m: u64) -> u64
    requires { (0 < m) × (m ≤ 2 ^ 31) }
    ensures { result ≡ number s.now body end % m }
{
    let a = 4294967296 % m;
    let b = a * a % m;
    let mut i = body + octets::minus(end, body) % 4;
    let mut r = small(s, body, i) as u64;
    // A `for` over (i..end).step_by(4) took 8 instructions more of 100 for the rules of a certificate (profile 2, two findings).
    while i < end {
        r = step(r, a, b, word_at(s, i));
        i += 4;
    }
    r % m
}

// The number modulo m, from the number modulo the last such m.
fn renew(s: &[u8], body: usize, end: usize, last: u64, r: u64, m: u64) -> u64
    requires { (0 < m) × (m ≤ 2 ^ 31) × (r ≡ number s.now body end % last) }
    ensures { result ≡ number s.now body end % m }
{
    if m == last {
        return r;
    }
    residue(s, body, end, m)
}

// Whether none of the primes divides the number, by its residues modulo the products beside them.
fn none_divides(s: &[u8], body: usize, end: usize, primes: &[u16], products: &[u32]) -> bool
    requires { rows_ok primes.now products.now ≡ true }
    ensures { result ≡ free_of primes.now (number s.now body end) }
{
    let mut last: u64 = 1;
    let mut r: u64 = 0;
    // Over primes.iter().zip(products) it took 9 instructions more of 1,000 there: both are walked by their index.
    for k in 0..primes.len() {
        let m = products[k] as u64;
        r = renew(s, body, end, last, r, m);
        last = m;
        if r % (primes[k] as u64) == 0 {
            return false;
        }
    }
    true
}

// Rule 207: whether no prime below 752 divides the number of the octets from body to end.
pub fn divisible_by_none(s: &[u8], body: usize, end: usize) -> bool
    ensures { result ≡ free_of (primes_below 752) (number s.now body end) }
{
    let primes = PRIMES;
    let products = PRODUCTS;
    none_divides(s, body, end, &primes, &products)
}

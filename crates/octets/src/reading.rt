// Single octets, the numbers that several make, and the sums and differences that walking over them takes.
ghost use Rattle.std.specs.Prelude.{◌≡◌, ◌+◌, ◌-◌, ◌*◌, ◌<◌, min, leb};
ghost use Rattle.octets.specs.Octets.{octet_at, octets_from};
ghost use Rattle.octets.specs.Numbers.{number_of, pair_at, largest};

// The octet at place i, 0 past the end.
pub fn octet(s: &[u8], i: usize) -> u8
    ensures { result ≡ octet_at s.now i }
{
    s.get(i).copied().unwrap_or(0)
}

// The octet k places after i.
pub fn octet_past(s: &[u8], i: usize, k: usize) -> u8
    ensures { result ≡ octet_at s.now (i + k) }
{
    if i < s.len() { octet(&s[i..], k) } else { 0 }
}

// An octet to count with.
pub fn wide(x: u8) -> usize
    ensures { (result ≡ x) × (result < 256) }
{
    x as usize
}

// The number that the octets at i and after it say, the high one first.
pub fn pair(s: &[u8], i: usize) -> usize
    ensures { (result ≡ pair_at s.now i) × (result < 65536) }
{
    256 * usize::from(octet(s, i)) + usize::from(octet_past(s, i, 1))
}

// The number n written on by one octet more, as far as a usize counts.
fn written_on(n: usize, b: u8) -> usize
    ensures { result ≡ min (256 * n + b) largest }
{
    n.saturating_mul(256).saturating_add(usize::from(b))
}

// The number that n octets say from `skip` places after `at` on, the high one first, as far as a usize counts.
pub fn number(s: &[u8], at: usize, skip: u8, n: u8) -> usize
    ensures { result ≡ min (number_of (octets_from s.now (at + skip) n)) largest }
{
    let from = usize::from(skip);
    let mut value = 0;
    for k in 0..usize::from(n) {
        value = written_on(value, octet_past(s, at, from + k));
    }
    value
}

// a less b, 0 where b is larger.
pub fn minus(a: usize, b: usize) -> usize
    ensures { result ≡ a - b }
{
    a.saturating_sub(b)
}

// Whether n octets from place a on stay before end.
pub fn within(a: usize, n: usize, end: usize) -> bool
    ensures { result ≡ leb (a + n) end }
{
    if a <= end { n <= end - a } else { false }
}

// Whether two stretches of n and m octets, one behind the other from place a on, stay before end.
pub fn fits(a: usize, n: usize, m: usize, end: usize) -> bool
    ensures { result ≡ leb (a + (n + m)) end }
{
    if a <= end {
        return within(n, m, end - a);
    }
    false
}

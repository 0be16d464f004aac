// Numbers as far as 2^32 counts.
ghost use Rattle.std.specs.Prelude.{◌≡◌, cond, ◌+◌, ◌*◌, ◌^◌, ◌≤◌, min, ltb, leb};
ghost use Rattle.numbers.specs.Numbers.{number};

// One octet more, up to 2^32.
fn push(n: usize, b: u8) -> usize
    ensures { (result ≡ cond (ltb n (2 ^ 24)) (256 * n + b) (2 ^ 32)) × (result ≤ 2 ^ 32) }
{
    if n < 16777216 {
        return 256 * n + usize::from(b);
    }
    4294967296
}

// The number of the octets from body to end, up to 2^32.
pub fn small(s: &[u8], body: usize, end: usize) -> usize
    ensures { result ≡ min (number s.now body end) (2 ^ 32) }
{
    let mut n: usize = 0;
    for i in body..end {
        n = push(n, octets::octet(s, i));
    }
    n
}

// Whether the number is k or more.
pub fn at_least(s: &[u8], body: usize, end: usize, k: u32) -> bool
    ensures { result ≡ leb k (number s.now body end) }
{
    k as usize <= small(s, body, end)
}

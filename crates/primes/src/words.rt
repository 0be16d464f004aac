// Octets read four at a time.
ghost use Rattle.std.specs.Prelude.{◌≡◌, ◌+◌, ◌*◌, ◌<◌, ◌^◌};
ghost use Rattle.primes.specs.Workings.Rows.{word_at};

fn four(a: u8, b: u8, c: u8, d: u8) -> u64
    ensures { (result ≡ 256 * (256 * (256 * a + b) + c) + d) × (result < 2 ^ 32) }
{
    256 * (256 * (256 * u64::from(a) + u64::from(b)) + u64::from(c)) + u64::from(d)
}

// The four octets from i on, high octet first.
pub fn word_at(s: &[u8], i: usize) -> u64
    ensures { (result ≡ word_at s.now i) × (result < 2 ^ 32) }
{
    if i < s.len() {
        if 3 < s.len() - i {
            return four(s[i], s[i + 1], s[i + 2], s[i + 3]);
        }
    }
    four(
        octets::octet(s, i),
        octets::octet_past(s, i, 1),
        octets::octet_past(s, i, 2),
        octets::octet_past(s, i, 3),
    )
}

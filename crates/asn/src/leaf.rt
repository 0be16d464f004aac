// Contents that are no list of elements, by the number of their test. A type that DER has judged under its own tag is
// tested under another alone.
ghost use Rattle.std.specs.Prelude.{◌≡◌, ◌+◌, ◌-◌, ◌||◌, eqb, ltb, is_some};
ghost use Rattle.octets.specs.Octets.{octet_at, octets_from};
ghost use Rattle.der.specs.Contents.{primitive_ok};
ghost use Rattle.asn.specs.Grammar.{version_ok, true_ok, natural_ok, positive_ok, named_ok, passes};
ghost use Rattle.times.specs.Reads.{time_of};
ghost use Rattle.asn.specs.Workings.Table.{test_at};

fn version_ok(s: &[u8], body: usize, n: usize) -> bool
    ensures { result ≡ version_ok (octets_from s.now body n) }
{
    let b = octets::octet(s, body);
    (n == 1) & ((b == 1) | (b == 2))
}

fn true_ok(s: &[u8], body: usize, n: usize) -> bool
    ensures { result ≡ true_ok (octets_from s.now body n) }
{
    (n == 1) & (octets::octet(s, body) == 255)
}

fn natural_ok(s: &[u8], body: usize, n: usize) -> bool
    ensures { result ≡ natural_ok (octets_from s.now body n) }
{
    let first = octets::octet(s, body);
    der::primitive_ok(s, 2, body, n) & (first < 128)
}

// A number whose default is 0: it is not written where it is 0.
fn positive_ok(s: &[u8], body: usize, n: usize) -> bool
    ensures { result ≡ positive_ok (octets_from s.now body n) }
{
    let first = octets::octet(s, body);
    natural_ok(s, body, n) & !((n == 1) & (first == 0))
}

// The last of the n octets from place `body` on.
fn last_octet(s: &[u8], body: usize, n: usize) -> u8
    ensures { result ≡ octet_at s.now (body + (n - 1)) }
{
    octets::octet_past(s, body, octets::minus(n, 1))
}

fn named_ok(s: &[u8], body: usize, n: usize) -> bool
    ensures { result ≡ named_ok (octets_from s.now body n) }
{
    let unused = octets::octet(s, body);
    let last = last_octet(s, body, n);
    der::primitive_ok(s, 3, body, n) & ((n == 1) | octets::bit(u64::from(last), unused))
}

fn time_ok(s: &[u8], tag: u8, body: usize, n: usize) -> bool
    ensures { result ≡ is_some (time_of tag (octets_from s.now body n)) }
{
    times::read_time(s, tag, body, n).is_some()
}

// A universal type under another tag than its own: with its own it was judged with all of DER.
fn universal_ok(s: &[u8], number: u8, tag: u8, body: usize, n: usize) -> bool
    ensures { result ≡ (ltb tag 64 || primitive_ok number (octets_from s.now body n)) }
{
    if tag < 64 {
        return true;
    }
    der::primitive_ok(s, number, body, n)
}

// The tests' numbers are below this.
pub const TESTS: usize = 13;

// Whether the n octets from place `body` on, under this tag, pass the test with this number: a number and no enum,
// since a row of the table has it in 7 bits, and these same arms would be needed to make an enum of it.
#[tactic(auto, unfolding(der::specs::Contents::primitive_ok))]
pub fn passes_test(s: &[u8], test: usize, tag: u8, body: usize, n: usize) -> bool
    ensures { result ≡ passes (test_at test) tag (octets_from s.now body n) }
{
    match test {
        2 => universal_ok(s, 2, tag, body, n),
        3 => natural_ok(s, body, n),
        4 => version_ok(s, body, n),
        5 => true_ok(s, body, n),
        6 => universal_ok(s, 6, tag, body, n),
        7 => universal_ok(s, 3, tag, body, n),
        8 => named_ok(s, body, n),
        9 => universal_ok(s, 5, tag, body, n),
        10 => time_ok(s, 23, body, n),
        11 => time_ok(s, 24, body, n),
        12 => positive_ok(s, body, n),
        _ => true,
    }
}

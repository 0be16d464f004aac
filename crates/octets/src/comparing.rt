// Comparing two stretches, octet by octet or with the case of ASCII letters ignored.
ghost use Rattle.std.specs.Prelude.{◌≡◌, Bool, ℕ};
ghost use Rattle.std.specs.List.{list_all, zip};
ghost use Rattle.octets.specs.Octets.{octets_from};
ghost use Rattle.octets.specs.Same.{same_by, exactly, lower_case};
ghost use Rattle.octets.specs.Workings.Same.{ComputesOfTwo};

use crate::reading::octet_past;

// Whether each of the n octets from a on in s passes the test with the one that has its place among those from b on in t.
fn all_beside<F: Fn(u8, u8) -> bool>(
    s: &[u8],
    a: usize,
    t: &[u8],
    b: usize,
    n: usize,
    test: F,
) -> bool
    requires { (state : F) (x : _) (y : _) → F.pre state x y }
    ensures { (passes : ℕ → ℕ → Bool) → ComputesOfTwo (F.post test) passes
        → result ≡ list_all (λ pair. passes pair.0 pair.1) (zip (octets_from s.now a n) (octets_from t.now b n)) }
{
    (0..n).all(|k| test(octet_past(s, a, k), octet_past(t, b, k)))
}

// A to Z become a to z.
pub fn lower_case(b: u8) -> u8
    ensures { result ≡ lower_case b }
{
    b.to_ascii_lowercase()
}

// Whether the n octets from a on in s are those from b on in t.
pub fn same(s: &[u8], a: usize, t: &[u8], b: usize, n: usize) -> bool
    ensures { result ≡ same_by exactly (octets_from s.now a n) (octets_from t.now b n) }
{
    all_beside(s, a, t, b, n, |x, y| x == y)
}

// The same with the case of ASCII letters ignored.
pub fn same_ignoring_case(s: &[u8], a: usize, t: &[u8], b: usize, n: usize) -> bool
    ensures { result ≡ same_by lower_case (octets_from s.now a n) (octets_from t.now b n) }
{
    all_beside(s, a, t, b, n, |x, y| lower_case(x) == lower_case(y))
}

// Whether the n octets from `at` on are the byte string `text`.
pub fn equals(s: &[u8], at: usize, n: usize, text: &[u8]) -> bool
    ensures { result ≡ same_by exactly (octets_from s.now at n) text.now }
{
    if n == text.len() {
        return same(s, at, text, 0, n);
    }
    false
}

// Whether the n octets from a on in s are the m octets from b on in t.
pub fn same_stretch(s: &[u8], a: usize, n: usize, t: &[u8], b: usize, m: usize) -> bool
    ensures { result ≡ same_by exactly (octets_from s.now a n) (octets_from t.now b m) }
{
    if n == m {
        return same(s, a, t, b, n);
    }
    false
}

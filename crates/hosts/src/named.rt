// dNSNames, and rule 120: a common name that is one of them.
ghost use Rattle.std.specs.Prelude.{◌≡◌};
ghost use Rattle.octets.specs.Octets.{octets_from};
ghost use Rattle.der.specs.Header.{children_of};
ghost use Rattle.hosts.specs.Names.{is_dns_name, some_named};

use der::Head;

// Rule 412 is broken by each name for which this says no.
pub fn is_dns_name(h: Head) -> bool
    ensures { result ≡ is_dns_name h }
{
    let tag = h.tag;
    tag == 130
}

// Whether the n octets from a on are, ASCII case ignored, the contents of at least one dNSName among the names
// from `at` to `end`. The names are left at the first match, and a name at its first mismatch.
pub fn some_same(s: &[u8], a: usize, n: usize, at: usize, end: usize) -> bool
    ensures { result ≡ some_named s.now (octets_from s.now a n) (children_of s.now at end) }
{
    // Labels, and no chain: the form that document 01 names (docs/STATEMENTS.md).
    let mut found = false;
    'names: for name in der::children_of(s, at, end) {
        let body = name.body;
        let mut k = 0;
        if !((name.tag == 130) & (octets::minus(name.end, body) == n)) {
            continue 'names;
        }
        loop {
            if k == n {
                found = true;
                break 'names;
            }
            let x = octets::lower_case(octets::octet_past(s, a, k));
            let y = octets::lower_case(octets::octet_past(s, body, k));
            if x != y {
                continue 'names;
            }
            k += 1;
        }
    }
    found
}

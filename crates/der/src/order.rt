// The order of a SET's members (X.690, 11.6): they ascend as octet strings, and equal ones are allowed.
ghost use Rattle.std.specs.Prelude.{◌≡◌, map, ◌-◌, not, ◌||◌};
ghost use Rattle.octets.specs.Octets.{octets_from};
ghost use Rattle.der.specs.Header.{children_of};
ghost use Rattle.der.specs.Order.{octets_le, ascending as ascending_of, octets_of};

use crate::children::children_of;
use crate::header::Head;
use crate::members::missing;

// Whether the n octets from a on come, as in a dictionary, no later than the m octets from b on.
pub fn octets_le(s: &[u8], a: usize, n: usize, b: usize, m: usize) -> bool
    ensures { result ≡ octets_le (octets_from s.now a n) (octets_from s.now b m) }
{
    for k in 0..n {
        if m <= k {
            return false;
        }
        let x = octets::octet_past(s, a, k);
        let y = octets::octet_past(s, b, k);
        if x < y {
            return true;
        }
        if y < x {
            return false;
        }
    }
    true
}

// Whether the member from `at` to `end` may follow the one from `from` to `at`: in a SET alone there is an order.
pub fn may_follow(s: &[u8], set: bool, from: usize, at: usize, end: usize) -> bool
    ensures { result ≡ (not set || octets_le (octets_from s.now from (at - from)) (octets_from s.now at (end - at))) }
{
    if set {
        return octets_le(s, from, octets::minus(at, from), at, octets::minus(end, at));
    }
    true
}

// Whether the element a comes no later than b.
fn element_le(s: &[u8], a: Head, b: Head) -> bool
    ensures { result ≡ octets_le (octets_of s.now a) (octets_of s.now b) }
{
    octets_le(
        s,
        a.at,
        octets::minus(a.end, a.at),
        b.at,
        octets::minus(b.end, b.at),
    )
}

// Whether the elements from `at` to `end` ascend. (The walk judges a SET that bears its own tag; this is for one
// under another tag.)
#[tactic(auto, unfolding(crate::specs::Order::ascend_from))]
pub fn ascending(s: &[u8], at: usize, end: usize) -> bool
    ensures { result ≡ ascending_of (map (octets_of s.now) (children_of s.now at end)) }
{
    let mut before = missing(at);
    for member in children_of(s, at, end) {
        if !element_le(s, before, member) {
            return false;
        }
        before = member;
    }
    true
}

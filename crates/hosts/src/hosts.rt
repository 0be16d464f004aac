// Host names: rules 413 and 414.
ghost use Rattle.std.specs.Prelude.{◌≡◌, ◌&&◌, ◌<◌, length, leb};
ghost use Rattle.octets.specs.Octets.{is_one_of, octets_from};
ghost use Rattle.octets.specs.Numbers.{largest};
ghost use Rattle.hosts.specs.Hosts.{has_underscore, label_octet, labels_of, labels_ok, is_host_name, no_host};
ghost use Rattle.hosts.specs.Workings.Scanning.{may_end, may_grow, may_follow, size_after};

use crate::named::is_dns_name;
use der::Head;

// Whether x is one of the n octets from `body` on.
fn has_octet(s: &[u8], x: u8, body: usize, n: usize) -> bool
    ensures { result ≡ is_one_of x (octets_from s.now body n) }
{
    octets::octets_from(s, body, n).any(|b| b == x)
}

// Rule 413: a dNSName with an underscore.
pub fn has_underscore(s: &[u8], h: Head) -> bool
    ensures { result ≡ has_underscore s.now h }
{
    let body = h.body;
    if is_dns_name(h) {
        return has_octet(s, b'_', body, octets::minus(h.end, body));
    }
    false
}

fn label_octet(b: u8) -> bool
    ensures { result ≡ label_octet b }
{
    let letter = (b'A' <= b) & (b <= b'Z') | (b'a' <= b) & (b <= b'z');
    letter | (octets::is_digit(b) | ((b == b'-') | (b == b'_')))
}

// Whether a label of this size, whose last octet is `last`, may end.
fn may_end(size: usize, last: u8) -> bool
    ensures { result ≡ may_end size last }
{
    !(size == 0) & !(last == b'-')
}

// Whether a label of this size may go on with the octet b.
fn may_grow(size: usize, b: u8) -> bool
    ensures { result ≡ may_grow size b }
{
    label_octet(b) & (!((size == 0) & (b == b'-')) & (size < 63))
}

// Whether b may follow: a dot ends the label, any other octet goes on with it.
fn may_follow(size: usize, last: u8, b: u8) -> bool
    ensures { result ≡ may_follow size last b }
{
    if b == b'.' {
        may_end(size, last)
    } else {
        may_grow(size, b)
    }
}

fn size_after(size: usize, b: u8) -> usize
    requires { size < largest }
    ensures { result ≡ size_after size b }
{
    if b == b'.' { 0 } else { size + 1 }
}

// Whether the n octets from `body` on are two labels or more, each a good one. They are read once: of the label so
// far only its size and its last octet are kept.
fn labels_ok(s: &[u8], body: usize, n: usize) -> bool
    ensures { result ≡ (leb 2 (length (labels_of (octets_from s.now body n))) && labels_ok (labels_of (octets_from s.now body n))) }
{
    let mut size = 0;
    let mut last = b'.';
    let mut dotted = false;
    for k in 0..n {
        let b = octets::octet_past(s, body, k);
        if !may_follow(size, last, b) {
            return false;
        }
        size = size_after(size, b);
        last = b;
        dotted = dotted | (b == b'.');
    }
    dotted & may_end(size, last)
}

// Whether the n octets from `body` on are a host name.
pub fn is_host_name(s: &[u8], body: usize, n: usize) -> bool
    ensures { result ≡ is_host_name (octets_from s.now body n) }
{
    if n <= 253 {
        return labels_ok(s, body, n);
    }
    false
}

// Rule 414: a dNSName that is no host name.
pub fn no_host(s: &[u8], h: Head) -> bool
    ensures { result ≡ no_host s.now h }
{
    let body = h.body;
    if is_dns_name(h) {
        return !is_host_name(s, body, octets::minus(h.end, body));
    }
    false
}

// Object identifiers one arc below another.
ghost use Rattle.std.specs.Prelude.{◌≡◌};
ghost use Rattle.der.specs.Contents.{contents_of};
ghost use Rattle.der.specs.Arcs.{arc_below};

use crate::header::Head;

// The last arc of an OBJECT IDENTIFIER whose first octets are `prefix`, 0 where they are others or where not one octet
// is left.
pub fn arc_below(s: &[u8], h: Head, prefix: &[u8]) -> u8
    ensures { result ≡ arc_below prefix.now (contents_of s.now h) }
{
    let body = h.body;
    let n = prefix.len();
    if octets::minus(octets::minus(h.end, body), n) != 1 {
        return 0;
    }
    if octets::equals(s, body, n, prefix) {
        return octets::octet_past(s, body, n);
    }
    0
}

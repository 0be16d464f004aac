// What an attribute is of, and its value.
ghost use Rattle.std.specs.Prelude.{◌≡◌};
ghost use Rattle.octets.specs.Octets.{octets_from};
ghost use Rattle.der.specs.Arcs.{arc_below};
ghost use Rattle.subjects.specs.Types.{attribute_types, arc_of, attribute_value};

use der::Head;

// The arc below 2.5.4 that n octets of an OBJECT IDENTIFIER say, 0 where they say another. (Attributes are read often:
// no octets are lent here.)
fn type_arc(s: &[u8], body: usize, n: usize) -> u8
    ensures { result ≡ arc_below attribute_types (octets_from s.now body n) }
{
    let first = octets::octet(s, body);
    let second = octets::octet_past(s, body, 1);
    if (n == 3) & ((first == 85) & (second == 4)) {
        return octets::octet_past(s, body, 2);
    }
    0
}

// The arc of an attribute's type below 2.5.4, 0 where it has another type.
pub fn arc_of(s: &[u8], h: Head) -> u8
    ensures { result ≡ arc_of s.now h }
{
    let kind = der::first_in(s, h);
    type_arc(s, kind.body, octets::minus(kind.end, kind.body))
}

// An attribute's value: the element after its type.
pub fn attribute_value(s: &[u8], h: Head) -> Head
    ensures { result ≡ attribute_value s.now h }
{
    der::second_in(s, h)
}

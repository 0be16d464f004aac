// The side of a record that an argument names.
ghost use Rattle.std.specs.Prelude.{◌≡◌};
ghost use Rattle.deckget.specs.Sides.{side_named};

use lint::Side;

pub fn side_named(text: &[u8]) -> Option<Side>
    ensures { result ≡ side_named text.now }
{
    if octets::equals(text, 0, text.len(), b"certificate") {
        return Some(Side::Certificate);
    }
    if octets::equals(text, 0, text.len(), b"issuer") {
        return Some(Side::Issuer);
    }
    None
}

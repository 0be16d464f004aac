// The number of a card, FASC-N, as a name of its holder: what rule 507 looks for.
ghost use Rattle.std.specs.Prelude.{◌≡◌};
ghost use Rattle.badges.specs.Cards.{is_fasc_n};

use der::Head;

// Whether a name is an otherName of the type pivFASC-N whose value is an OCTET STRING.
pub fn is_fasc_n(s: &[u8], h: Head) -> bool
    ensures { result ≡ is_fasc_n s.now h }
{
    let value = der::first_in(s, der::second_in(s, h));
    let typed = der::first_is(s, h, b"\x60\x86\x48\x01\x65\x03\x06\x06");
    (h.tag == 160) & (typed & (value.tag == 4))
}

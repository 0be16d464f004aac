// The issuer's certificate, of which two things count: its subject name and its key identifier.
ghost use Rattle.std.specs.Prelude.{◌≡◌};
ghost use Rattle.certificate.specs.Issuer.{element_in, issuer_of};

use crate::fields::read;
use crate::slots::{Slot, first_in_slot, slot_from};
use der::Head;

#[derive(Clone, Copy)]
pub struct Issuer {
    // its subject
    pub name: Head,
    // the OCTET STRING inside its first subject key id extension, if it has one and that is good, and else the element that stands
    // for it
    pub key_id: Result<Head, Head>,
}

// The element of a slot, and as an error one that is missing or bad.
fn element_in(slot: Slot) -> Result<Head, Head>
    ensures { result ≡ element_in slot }
{
    let element = slot.element;
    if slot.good { Ok(element) } else { Err(element) }
}

pub fn read_issuer(i: &[u8]) -> Issuer
    ensures { result ≡ issuer_of i.now }
{
    let certificate = read(i);
    let place = first_in_slot(i, certificate.extensions, 3);
    let slot = slot_from(i, 3, place);
    Issuer {
        name: certificate.subject,
        key_id: element_in(slot),
    }
}

// The linter's refusals ("Refusals and their order", document 01), and the paper's values of each.
ghost use Rattle.std.specs.Prelude.{◌≡◌};
ghost use Rattle.lint.specs.declared.reasons.Refusal.TheVariants as Refusal;
ghost use Rattle.lint.specs.Refusals.{side_number, inadmissible_values, refusal_values};

use refusals::{
    NOT_CERTIFICATE, NOT_SOUND_DER, ON_CERTIFICATE, ON_ISSUER, ON_NEITHER, SET_OUT_OF_ORDER,
    TOO_LITTLE_ROOM, UNKNOWN_PROFILE, Values, WRONG_CERTIFICATE_LENGTH, WRONG_ISSUER_LENGTH,
    refused,
};

#[derive(Clone, Copy, Debug, PartialEq, Eq)]
pub enum Side {
    Certificate,
    Issuer,
}

// What keeps a call from being looked at. The deck's writer gives these too.
#[derive(Clone, Copy, Debug, PartialEq, Eq)]
pub enum Inadmissible {
    // the certificate has 0 or over 8,192 octets
    CertificateLength,
    // the issuer has
    IssuerLength,
    // the profile is not 1 to 4
    UnknownProfile,
}

#[derive(Clone, Copy, Debug, PartialEq, Eq)]
pub enum Refusal {
    Inadmissible(Inadmissible),
    // not sound DER, at the first faulty element
    Unsound(Side, usize),
    // a SET out of order, at the first such SET
    Unordered(Side, usize),
    // not a certificate, at the first element not allowed there
    NotCertificate(Side, usize),
    // too little room
    NoRoom,
}

impl From<Inadmissible> for Refusal {
    ghost from_gives = { λ r refusal. refusal ≡ Refusal.Inadmissible r };

    fn from(r: Inadmissible) -> Refusal {
        Refusal::Inadmissible(r)
    }
}

fn side_number(side: Side) -> usize
    ensures { result ≡ side_number side }
{
    match side {
        Side::Certificate => ON_CERTIFICATE,
        Side::Issuer => ON_ISSUER,
    }
}

// Functions and no impls of `From`, here and below: `answer_values` could be none, since `Result` and `Values` are both of
// other crates, and it and its parts have one form.
pub fn inadmissible_values(r: Inadmissible) -> Values
    ensures { result ≡ inadmissible_values r }
{
    match r {
        Inadmissible::CertificateLength => refused(WRONG_CERTIFICATE_LENGTH, ON_CERTIFICATE, 0),
        Inadmissible::IssuerLength => refused(WRONG_ISSUER_LENGTH, ON_ISSUER, 0),
        Inadmissible::UnknownProfile => refused(UNKNOWN_PROFILE, ON_NEITHER, 0),
    }
}

pub fn refusal_values(r: Refusal) -> Values
    ensures { result ≡ refusal_values r }
{
    match r {
        Refusal::Inadmissible(i) => inadmissible_values(i),
        Refusal::Unsound(side, place) => refused(NOT_SOUND_DER, side_number(side), place),
        Refusal::Unordered(side, place) => refused(SET_OUT_OF_ORDER, side_number(side), place),
        Refusal::NotCertificate(side, place) => refused(NOT_CERTIFICATE, side_number(side), place),
        Refusal::NoRoom => refused(TOO_LITTLE_ROOM, ON_NEITHER, 0),
    }
}

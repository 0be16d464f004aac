// Refusals 1 to 6, in their order: lengths and profile, and then 4, 5 and 6 on the certificate and on the issuer.
ghost use Rattle.std.specs.Prelude.{◌≡◌};
ghost use Rattle.lint.specs.Judging.{side_length_ok, by_verdict, side_judgement, both_sides, admission_of, judgement_of};

use crate::reasons::{Inadmissible, Refusal, Side};
use asn::Misfit;
use der::Fault;
use profiles::Profile;

fn side_length_ok(n: usize) -> bool
    ensures { result ≡ side_length_ok n }
{
    (1 <= n) & (n <= 8192)
}

// Refusal 6, of a side that is sound DER.
fn by_verdict(p: Profile, side: Side, verdict: Result<(), Misfit>) -> Result<Profile, Refusal>
    ensures { result ≡ by_verdict p side verdict }
{
    match verdict {
        Ok(()) => Ok(p),
        Err(Misfit::Wrong(place)) => Err(Refusal::NotCertificate(side, place)),
        Err(Misfit::Stranger) => Err(Refusal::NotCertificate(side, 0)),
    }
}

// Refusals 4, 5 and 6 of one side.
#[tactic(auto, unfolding(crate::specs::Judging::side_judgement))]
fn judge_side(p: Profile, side: Side, s: &[u8]) -> Result<Profile, Refusal>
    ensures { result ≡ side_judgement p side s.now }
{
    match der::check_der(s) {
        Ok(()) => by_verdict(p, side, asn::check_certificate(s)),
        Err(Fault::Unsound(place)) => Err(Refusal::Unsound(side, place)),
        Err(Fault::Unordered(place)) => Err(Refusal::Unordered(side, place)),
    }
}

// 4, 5 and 6 on the certificate, then on the issuer.
#[tactic(auto, unfolding(crate::specs::Judging::both_sides))]
fn judge_both(p: Profile, certificate: &[u8], issuer: &[u8]) -> Result<Profile, Refusal>
    ensures { result ≡ both_sides p certificate.now issuer.now }
{
    judge_side(p, Side::Certificate, certificate)?;
    judge_side(p, Side::Issuer, issuer)
}

// Refusals 1, 2 and 3, which the deck's writer gives too, or a profile to go on for: of a certificate and an issuer of so
// many octets.
#[tactic(auto, unfolding(crate::specs::Judging::admission_of))]
pub fn admit(certificate: usize, issuer: usize, profile: u8) -> Result<Profile, Inadmissible>
    ensures { result ≡ admission_of certificate issuer profile }
{
    if !side_length_ok(certificate) {
        return Err(Inadmissible::CertificateLength);
    }
    if !side_length_ok(issuer) {
        return Err(Inadmissible::IssuerLength);
    }
    profiles::profile_of(profile).ok_or(Inadmissible::UnknownProfile)
}

// Refusals 1 to 6, or a profile to lint for.
#[tactic(auto, unfolding(crate::specs::Judging::judgement_of))]
pub fn examine(certificate: &[u8], issuer: &[u8], profile: u8) -> Result<Profile, Refusal>
    ensures { result ≡ judgement_of certificate.now issuer.now profile }
{
    let p = admit(certificate.len(), issuer.len(), profile)?;
    judge_both(p, certificate, issuer)
}

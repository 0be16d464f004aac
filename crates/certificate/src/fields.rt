// The fields of a certificate, head after head in the order of RFC 5280, 4.1. Nothing is judged here: a certificate
// that is none is refused before.
ghost use Rattle.std.specs.Prelude.{◌≡◌};
ghost use Rattle.certificate.specs.Fields.{list_after, time_in, validity_of, certificate_of};

use der::Head;
use times::{Date, Time, Validity};

#[derive(Clone, Copy)]
pub struct Certificate {
    // the structure that is signed
    pub tbs: Head,
    // the first member of the TBS structure: the [0], if its tag is A0
    pub version: Head,
    pub serial: Head,
    // the AlgorithmIdentifier inside the TBS structure
    pub inner: Head,
    pub issuer: Head,
    // the Validity and its two times
    pub period: Head,
    pub not_before: Head,
    pub not_after: Head,
    pub subject: Head,
    // the SubjectPublicKeyInfo
    pub key: Head,
    // the SEQUENCE OF Extension inside [3]
    pub extensions: Head,
    // the AlgorithmIdentifier after the TBS structure
    pub outer: Head,
    pub validity: Validity,
}

// What stands for a time where there is none: no accepted certificate has one such.
const NO_TIME: Time = Time::Utc(Date {
    year: 0,
    month: 0,
    day: 0,
    hour: 0,
    minute: 0,
    second: 0,
});

// The time that an element says.
fn time_in(s: &[u8], h: Head) -> Time
    ensures { result ≡ time_in s.now h }
{
    times::read_time(s, h.tag, h.body, octets::minus(h.end, h.body)).unwrap_or(NO_TIME)
}

fn validity_of(s: &[u8], before: Head, after: Head) -> Validity
    ensures { result ≡ validity_of s.now before after }
{
    Validity {
        not_before: time_in(s, before),
        not_after: time_in(s, after),
    }
}

// The extension list of a TBS structure: it follows the key and the two unique identifiers, if there are any.
fn list_after(s: &[u8], key: Head, end: usize) -> Head
    ensures { result ≡ list_after s.now key end }
{
    let issuer_id = der::after(s, key, end);
    let subject_id = der::past(0x81, s, issuer_id, end);
    let extended = der::past(0x82, s, subject_id, end);
    der::inside_tag(0xA3, s, extended, end)
}

pub fn read(s: &[u8]) -> Certificate
    ensures { result ≡ certificate_of s.now }
{
    let whole = der::head_any(s, 0, s.len());
    let tbs = der::head_any(s, whole.body, whole.end);
    let end = tbs.end;
    let version = der::first_in(s, tbs);
    let serial = der::past(0xA0, s, version, end);
    let inner = der::after(s, serial, end);
    let issuer = der::after(s, inner, end);
    let period = der::after(s, issuer, end);
    let not_before = der::first_in(s, period);
    let not_after = der::after(s, not_before, period.end);
    let subject = der::after(s, period, end);
    let key = der::after(s, subject, end);
    Certificate {
        tbs: tbs,
        version: version,
        serial: serial,
        inner: inner,
        issuer: issuer,
        period: period,
        not_before: not_before,
        not_after: not_after,
        subject: subject,
        key: key,
        extensions: list_after(s, key, end),
        outer: der::after(s, tbs, whole.end),
        validity: validity_of(s, not_before, not_after),
    }
}

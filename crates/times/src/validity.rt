// The times of a validity, each kept with the form that it had, and what rules 109 to 111 ask of them.
ghost use Rattle.std.specs.Prelude.{◌≡◌, ◌<◌, ◌^◌};
ghost use Rattle.times.specs.Validity.{date_of, moment_of, is_since, early_general, reversed_of, span_of, within_days_of, within_years_of};

use crate::anniversary::anniversary;
use crate::calendar::{Date, seconds};

#[derive(Clone, Copy)]
pub enum Time {
    Utc(Date),
    General(Date),
}

#[derive(Clone, Copy)]
pub struct Validity {
    pub not_before: Time,
    pub not_after: Time,
}

// Both forms say a date.
pub fn date_of(t: Time) -> Date
    ensures { result ≡ date_of t }
{
    match t {
        Time::Utc(d) => d,
        Time::General(d) => d,
    }
}

fn moment(t: Time) -> usize
    ensures { (result ≡ moment_of t) × (result < 2 ^ 43) }
{
    seconds(date_of(t))
}

// Whether a time falls on a date or later: rule 508 asks for a UUID from one on.
pub fn is_since(t: Time, from: Date) -> bool
    ensures { result ≡ is_since from t }
{
    seconds(from) <= moment(t)
}

// Whether rule 109 speaks against this time: UTCTime could say it.
pub fn early_general(t: Time) -> bool
    ensures { result ≡ early_general t }
{
    match t {
        Time::Utc(_) => false,
        Time::General(d) => d.year < 2050,
    }
}

// Whether rule 110 is broken.
pub fn reversed(v: Validity) -> bool
    ensures { result ≡ reversed_of v }
{
    let before = v.not_before;
    let after = v.not_after;
    moment(after) < moment(before)
}

// The seconds of a validity, both ends among them; none if its times stand the wrong way round.
fn span(v: Validity) -> usize
    ensures { result ≡ span_of v }
{
    let before = v.not_before;
    let after = v.not_after;
    octets::minus(moment(after) + 1, moment(before))
}

// Whether rule 111 is kept, for a limit of so many days. Times the wrong way round keep it: rule 110 speaks of them.
pub fn within_days(v: Validity, limit: u16) -> bool
    ensures { result ≡ within_days_of v limit }
{
    span(v) <= 86400 * limit as usize
}

// Whether rule 111 is kept, for a limit of so many years: notAfter comes before the anniversary of notBefore. Here too times the wrong way round
// keep it.
pub fn within_years(v: Validity, years: u16) -> bool
    ensures { result ≡ within_years_of v years }
{
    let before = v.not_before;
    let after = v.not_after;
    moment(after) < anniversary(date_of(before), years)
}

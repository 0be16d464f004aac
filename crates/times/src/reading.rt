// Times as a certificate writes them: YYMMDDHHMMSSZ for UTCTime, YYYYMMDDHHMMSSZ for GeneralizedTime.
// The contents of an element are the n octets from place `body` on.
ghost use Rattle.std.specs.Prelude.{◌≡◌, true, List, ℕ, ◌+◌, ◌<◌};
ghost use Rattle.octets.specs.Octets.{octet_at, octets_from};
ghost use Rattle.octets.specs.Characters.{is_digit};
ghost use Rattle.times.specs.Reads.{digits_first, digits_and_z, two_at, date_at, utc_date, general_date, full_year, if_real, time_of};

use crate::calendar::{Date, date_ok};
use crate::validity::{Time, date_of};

// The octet of the contents at place k, 0 past their end.
fn content(s: &[u8], body: usize, n: usize, k: usize) -> u8
    ensures { result ≡ octet_at (octets_from s.now body n) k }
{
    if k < n {
        octets::octet_past(s, body, k)
    } else {
        0
    }
}

// Whether the contents begin with so many digits.
fn digits_first(s: &[u8], body: usize, n: usize, digits: usize) -> bool
    ensures { result ≡ digits_first digits (octets_from s.now body n) }
{
    (digits <= n) & octets::octets_from(s, body, digits).all(|b| octets::is_digit(b))
}

fn digits_and_z(s: &[u8], body: usize, n: usize, digits: u8) -> bool
    ensures { result ≡ digits_and_z digits (octets_from s.now body n) }
{
    let last = usize::from(digits);
    (n == last + 1) & (digits_first(s, body, n, last) & (content(s, body, n, last) == b'Z'))
}

// The number that the two digits at place k say: a digit's is its low four bits. So is another octet's, of which nothing is promised.
fn two_at(s: &[u8], body: usize, n: usize, k: u16) -> u8
    ensures { let contents : List ℕ = octets_from s.now body n in
        (is_digit (octet_at contents k) ≡ true → is_digit (octet_at contents (k + 1)) ≡ true → result ≡ two_at k contents) × (result < 166) }
{
    let place = k as usize;
    10 * (content(s, body, n, place) % 16) + content(s, body, n, place + 1) % 16
}

// The date with this year whose month stands at place k, if the contents up to its end are digits.
fn date_at(s: &[u8], body: usize, n: usize, k: u8, year: u16) -> Date
    ensures { let contents : List ℕ = octets_from s.now body n in (digits_first (k + 10) contents ≡ true → result ≡ date_at k year contents) }
{
    let first = k as u16;
    Date {
        year: year,
        month: two_at(s, body, n, first),
        day: two_at(s, body, n, first + 2),
        hour: two_at(s, body, n, first + 4),
        minute: two_at(s, body, n, first + 6),
        second: two_at(s, body, n, first + 8),
    }
}

fn full_year(year: u8) -> u16
    ensures { result ≡ full_year year }
{
    if year < 50 {
        2000 + year as u16
    } else {
        1900 + year as u16
    }
}

fn utc_date(s: &[u8], body: usize, n: usize) -> Date
    ensures { let contents : List ℕ = octets_from s.now body n in (digits_first 12 contents ≡ true → result ≡ utc_date contents) }
{
    date_at(s, body, n, 2, full_year(two_at(s, body, n, 0)))
}

fn general_date(s: &[u8], body: usize, n: usize) -> Date
    ensures { let contents : List ℕ = octets_from s.now body n in (digits_first 14 contents ≡ true → result ≡ general_date contents) }
{
    let century = two_at(s, body, n, 0) as u16;
    date_at(s, body, n, 4, 100 * century + two_at(s, body, n, 2) as u16)
}

fn if_real(written: bool, t: Time) -> Option<Time>
    ensures { result ≡ if_real written t }
{
    (written & date_ok(date_of(t))).then_some(t)
}

// The time that an element with this tag says by its contents, if they say one.
pub fn read_time(s: &[u8], tag: u8, body: usize, n: usize) -> Option<Time>
    ensures { result ≡ time_of tag (octets_from s.now body n) }
{
    match tag {
        23 => if_real(
            digits_and_z(s, body, n, 12),
            Time::Utc(utc_date(s, body, n)),
        ),
        24 => if_real(
            digits_and_z(s, body, n, 14),
            Time::General(general_date(s, body, n)),
        ),
        _ => None,
    }
}

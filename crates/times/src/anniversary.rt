// A date some years on. No year is too late for it: it may lie past the last one that a date can say.
ghost use Rattle.std.specs.Prelude.{◌≡◌};
ghost use Rattle.times.specs.Calendar.{seconds_of};
ghost use Rattle.times.specs.Anniversary.{yearly_day, anniversary_of};

use crate::calendar::{Date, clock, days};

// The day of a month on which anniversaries fall: a leap day's on the day before it.
fn yearly_day(d: Date) -> u8
    ensures { result ≡ yearly_day d }
{
    if (d.month == 2) & (d.day == 29) {
        28
    } else {
        d.day
    }
}

// The seconds from the start of the year 0000 to the anniversary.
pub fn anniversary(d: Date, years: u16) -> usize
    ensures { result ≡ seconds_of (anniversary_of years d) }
{
    let year = d.year as u32 + years as u32;
    86400 * days(year, d.month, yearly_day(d)) + clock(d)
}

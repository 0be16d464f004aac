// Today's Gregorian calendar, counted from the start of the year 0000.
ghost use Rattle.std.specs.Prelude.{◌≡◌, ◌+◌, ◌-◌, ◌*◌, ◌≤◌, ◌<◌, ◌^◌};
ghost use Rattle.times.specs.Calendar.{leap_year, month_length, before_month, before_year, seconds_of, date_ok};

// A day and a second of it. The types are small, so that no count of days or seconds overflows, whatever the numbers.
#[derive(Clone, Copy)]
pub struct Date {
    pub year: u16,
    pub month: u8,
    pub day: u8,
    pub hour: u8,
    pub minute: u8,
    pub second: u8,
}

// Years are wider here than in a date, so that the year of an anniversary is one too.
fn leap_year(year: u32) -> bool
    ensures { result ≡ leap_year year }
{
    (year % 4 == 0) & (!(year % 100 == 0) | (year % 400 == 0))
}

// A month that is none has no days.
fn month_length(leap: bool, month: u8) -> u8
    ensures { (result ≡ month_length leap month) × (result < 32) }
{
    if month == 2 {
        return if leap { 29 } else { 28 };
    }
    if ((month == 4) | (month == 6)) | ((month == 9) | (month == 11)) {
        return 30;
    }
    if (1 <= month) & (month <= 12) { 31 } else { 0 }
}

// The days of the months before this one.
fn before_month(leap: bool, month: u8) -> usize
    ensures { (result ≡ before_month leap month) × (result < 2 ^ 13) }
{
    let mut days = 0;
    for m in 0..month {
        days += usize::from(month_length(leap, m));
    }
    days
}

// The days of the years before this one: 365 each, and one more for each leap year.
fn before_year(year: u32) -> usize
    ensures { (result ≡ before_year year) × (result ≤ 366 * year) }
{
    let y = year as usize;
    365 * y + (y + 3) / 4 - (y + 99) / 100 + (y + 399) / 400
}

// The days before this day of a month of a year.
pub fn days(year: u32, month: u8, day: u8) -> usize
    ensures { (result ≡ before_year year + (before_month (leap_year year) month + (day - 1))) × (result < 366 * year + 2 ^ 14) }
{
    let leap = leap_year(year);
    before_year(year) + (before_month(leap, month) + octets::minus(usize::from(day), 1))
}

// The seconds of its day before a date.
pub fn clock(d: Date) -> usize
    ensures { (result ≡ 3600 * d.hour + (60 * d.minute + d.second)) × (result < 2 ^ 20) }
{
    3600 * usize::from(d.hour) + (60 * usize::from(d.minute) + usize::from(d.second))
}

// The seconds from the start of the year 0000.
pub fn seconds(d: Date) -> usize
    ensures { (result ≡ seconds_of d) × (result < 2 ^ 43) }
{
    86400 * days(d.year as u32, d.month, d.day) + clock(d)
}

// Whether the calendar has this day, and a day this second.
pub fn date_ok(d: Date) -> bool
    ensures { result ≡ date_ok d }
{
    let day = d.day;
    let last = month_length(leap_year(d.year as u32), d.month);
    ((1 <= day) & (day <= last)) & ((d.hour < 24) & ((d.minute < 60) & (d.second < 60)))
}

// The times of a certificate: read from their octets, and compared by the calendar.
#![tactic(auto)]

mod anniversary;
mod calendar;
mod reading;
mod validity;

pub use calendar::{Date, date_ok, seconds};
pub use reading::read_time;
pub use validity::{
    Time, Validity, date_of, early_general, is_since, reversed, within_days, within_years,
};

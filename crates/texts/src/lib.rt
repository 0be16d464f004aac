// Texts put into a lent buffer: words, and numbers in decimal, one behind the other, as far as the buffer goes.
#![tactic(auto)]

mod numerals;
mod putting;

pub use numerals::decimal_of;
pub use putting::Text;

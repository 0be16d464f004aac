// The listing of a deck (document 01, "The deck") as octets in a lent buffer: the whole of it, a bufferful at a time. Every
// function of `lines` puts its text behind another in the buffer, as far as the buffer goes.
#![tactic(auto)]

mod filling;
mod lines;

pub use filling::{DECK_SPACE, Filling, LISTING_SPACE, Progress, fill_listing, start};

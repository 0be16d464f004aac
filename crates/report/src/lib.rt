// The report: an entry for each finding, one behind the other in lent room.
#![tactic(auto)]

mod reading;
mod sink;

pub use reading::read_entry;
pub use sink::{Entry, Sink, WIDTH, has_room};

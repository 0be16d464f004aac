// The deck's reader: what stands at each block, record by record with the linter's answer or as its octets, and the
// counts.
#![tactic(auto)]

mod counting;
mod finding;
mod gathering;
mod stepping;
mod taking;

pub use counting::{Counts, block_count, tally};
pub use finding::{Found, Loss, find};
pub use stepping::{Item, Record, item_blocks, step};
pub use taking::{Layout, NotTaken, take_record};

// Document 01's forms of rules: "each", "one X", and whether there is one. What rules say of one item stands apart from
// the loops that look at many; the loops know nothing of kinds.
#![tactic(auto)]

mod extensions;
mod firsts;
mod items;
mod judged;
mod kinds;
mod loops;
mod nests;
mod values;

pub use extensions::Repeats;
pub use firsts::{first, none_of};
pub use items::Items;
pub use judged::{judge_each, judge_one};
pub use kinds::Kind;
pub use nests::Nest;
pub use values::{judge_items, judge_value};

// The deck's writer: a record in, its blocks or a refusal out.
#![tactic(auto)]

mod reasons;
mod writing;

pub use reasons::{NotWritten, not_written_values};
pub use writing::{placing_values, write_record};

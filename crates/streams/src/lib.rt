// What programs read and write: a file to its end, an argument, the file that an argument names, standard output, and words
// on standard error.
#![tactic(auto)]

mod arguments;
mod reading;
mod saying;
mod writing;

pub use arguments::{NAME_SPACE, arg_count, argument, number_argument};
pub use reading::{load, open, read_all};
pub use saying::{say_number, say_text, say_why};
pub use writing::{write_out, write_to};

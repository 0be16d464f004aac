// What is said on standard error. Where it takes no words, nothing is left to say so on: a write that fails there is passed
// over.
use std::fmt::InlineText;
use std::io::{Error, Print};

// More than any error's words have, with the system's number of it.
const REASON: usize = 320;

pub fn say_text(errors: &impl Print, text: &[u8]) {
    let _ = errors.write_all(text);
}

pub fn say_number(errors: &impl Print, number: u64) {
    let _ = errors.print(number);
}

// The words of an error, without the number that the library puts behind the system's own.
fn say_reason(errors: &impl Print, reason: &str) {
    match reason.rsplit_once(" (os error ") {
        Some((words, _)) => say_text(errors, words.as_bytes()),
        None => say_text(errors, reason.as_bytes()),
    }
}

// A line: what failed, as the caller names it, a colon and why.
pub fn say_why(errors: &impl Print, what: &[u8], error: Error) {
    let reason = InlineText::<REASON>::of(error);
    say_text(errors, what);
    say_text(errors, b": ");
    say_reason(errors, reason.as_str());
    say_text(errors, b"\n");
}

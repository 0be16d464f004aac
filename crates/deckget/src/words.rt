// What is said on standard error.
use std::io::Print;
use streams::say_text;

pub fn say_how_to_call(errors: &impl Print) {
    say_text(
        errors,
        b"usage: deckget NUMBER certificate|issuer < DECK > FILE\n",
    );
}

// The words of the listing.
pub fn say_too_long(errors: &impl Print) {
    say_text(errors, b"deck too long\n");
}

fn say_number(errors: &impl Print, number: usize) {
    streams::say_number(errors, number as u64);
}

// How many records have the number, unless it is one. A record that lost a block is not among them.
pub fn say_count(errors: &impl Print, number: usize, count: usize) {
    match count {
        0 => {
            say_text(errors, b"the deck has no whole record ");
            say_number(errors, number);
            say_text(errors, b"; nothing was written\n");
        }
        1 => {}
        _ => {
            say_text(errors, b"the deck has ");
            say_number(errors, count);
            say_text(errors, b" records ");
            say_number(errors, number);
            say_text(errors, b", which were written one behind the other\n");
        }
    }
}

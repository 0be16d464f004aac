// What is said on standard error.
use lint::Inadmissible;
use std::io;
use std::io::{Error, ErrorKind, Print};
use streams::{say_number, say_text, say_why};
use writer::NotWritten;

pub fn say_usage(errors: &impl Print) {
    say_text(
        errors,
        b"usage: deckpack [DECK] NUMBER PROFILE CERTIFICATE ISSUER\n",
    );
}

// What a refusal says (docs/RULES.md).
fn say_reason(errors: &impl Print, r: NotWritten) {
    match r {
        NotWritten::Inadmissible(i) => say_inadmissible(errors, i),
        NotWritten::NoNumber => say_text(errors, b"the record number is 0\n"),
        NotWritten::NoRoom => say_text(errors, b"there is too little room\n"),
    }
}

fn say_inadmissible(errors: &impl Print, r: Inadmissible) {
    match r {
        Inadmissible::CertificateLength => say_text(
            errors,
            b"the certificate has no octets, or more than 8,192\n",
        ),
        Inadmissible::IssuerLength => say_text(
            errors,
            b"the issuer's certificate has no octets, or more than 8,192\n",
        ),
        Inadmissible::UnknownProfile => say_text(errors, b"the profile is not 1, 2, 3 or 4\n"),
    }
}

pub fn say_refusal(errors: &impl Print, r: NotWritten) {
    let v = writer::not_written_values(r);
    say_text(errors, b"refused ");
    say_number(errors, v.number as u64);
    say_text(errors, b": ");
    say_reason(errors, r);
}

// Why the deck could not be opened, and how one is started.
pub fn say_unopened(errors: &impl Print, name: &[u8], error: Error) {
    say_why(errors, name, error);
    if error.kind() == ErrorKind::NotFound {
        say_text(errors, b"nothing was added; `: > ");
        say_text(errors, name);
        say_text(errors, b"` starts a new deck\n");
    }
}

// The deck has no length: why, where the system says it.
pub fn say_endless(errors: &impl Print, name: &[u8], end: io::Result<u64>) {
    match end {
        Ok(_) => say_why(errors, name, Error::from(ErrorKind::InvalidData)),
        Err(error) => say_why(errors, name, error),
    }
}

// The deck ends with so many octets of a block.
pub fn say_torn(errors: &impl Print, name: &[u8], torn: u64) {
    say_text(errors, name);
    say_text(errors, b": the last ");
    say_number(errors, torn);
    say_text(
        errors,
        b" octets are no whole block, so nothing was added; `truncate -s /512 ",
    );
    say_text(errors, name);
    say_text(errors, b"` cuts them off\n");
}

// A write failed, and the deck has the length again that it had.
pub fn say_taken_back(errors: &impl Print, octets: u64) {
    say_text(errors, b"nothing was added: the deck has its ");
    say_number(errors, octets);
    say_text(errors, b" octets as before\n");
}

// A write failed, and the deck could not be given that length again.
pub fn say_left(errors: &impl Print, name: &[u8], octets: u64) {
    say_text(
        errors,
        b"the deck may end with a part of the record; `truncate -s ",
    );
    say_number(errors, octets);
    say_text(errors, b" ");
    say_text(errors, name);
    say_text(errors, b"` cuts it off\n");
}

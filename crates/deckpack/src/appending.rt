// A deck that is a file, and blocks added to it. What stands in the deck is not touched: the blocks come behind it, or it
// keeps its length. Two programs that add to one deck at once are not kept apart.
ghost use Rattle.std.specs.Prelude.{◌≡◌};
ghost use Rattle.deckpack.specs.Ending.{ending_of};

use crate::words;
use std::fs::{OpenFile, OpenOptions};
use std::io;
use std::io::{Print, Seek, SeekFrom, Write};
use std::rt::{Env, Files};

// How a deck ends.
#[derive(Clone, Copy)]
pub enum Ending {
    // with a whole block, or it has none: it has so many octets
    Whole(u64),
    // with so many octets of a block that is not whole, so that no block added behind them would be found
    Torn(u64),
    // it has no length, as a pipe has none
    Unknown,
}

// How a deck ends whose length the system gives so.
pub fn ending_of(length: i64) -> Ending
    ensures { result ≡ ending_of length }
{
    if length < 0 {
        return Ending::Unknown;
    }
    let octets = length as u64;
    if octets % 512 == 0 {
        return Ending::Whole(octets);
    }
    Ending::Torn(octets % 512)
}

// Writes the blocks, and answers whether they are on the disk. Where not, it says why.
fn write_through(
    file: &mut (impl Write + OpenFile),
    errors: &impl Print,
    name: &[u8],
    blocks: &[u8],
) -> bool {
    if !streams::write_to(file, errors, blocks, name) {
        return false;
    }
    match file.sync_all() {
        Ok(()) => true,
        Err(error) => {
            streams::say_why(errors, name, error);
            false
        }
    }
}

// Takes the deck back to the length that it had.
fn take_back(file: &impl OpenFile, errors: &impl Print, name: &[u8], octets: u64) {
    match file.set_len(octets) {
        Ok(()) => words::say_taken_back(errors, octets),
        Err(error) => {
            streams::say_why(errors, name, error);
            words::say_left(errors, name, octets);
        }
    }
}

// The length that the system gives, below 0 where it gives none.
fn length_of(end: io::Result<u64>) -> i64 {
    match end {
        Ok(octets) => octets.cast_signed(),
        Err(_) => -1,
    }
}

// Adds the blocks to an open deck, by which its length is read too.
fn append_to(
    file: &mut (impl Write + Seek + OpenFile),
    errors: &impl Print,
    name: &[u8],
    blocks: &[u8],
) {
    let end = file.seek(SeekFrom::End(0));
    match ending_of(length_of(end)) {
        Ending::Whole(octets) => {
            if !write_through(file, errors, name, blocks) {
                take_back(file, errors, name, octets);
            }
        }
        Ending::Torn(torn) => words::say_torn(errors, name, torn),
        Ending::Unknown => words::say_endless(errors, name, end),
    }
}

// A deck that is not there is not made: a name that was mistyped would get a deck of its own, and the record would be
// missed in the other.
fn append_named(rt: &impl Files, errors: &impl Print, name: &[u8], blocks: &[u8]) {
    let mut how = OpenOptions::new();
    how.append(true);
    match streams::open(rt, &how, name) {
        Ok(mut file) => append_to(&mut file, errors, name, blocks),
        Err(error) => words::say_unopened(errors, name, error),
    }
}

// Adds the blocks to the deck that argument i names.
pub fn append(rt: &(impl Env + Files), errors: &impl Print, i: usize, blocks: &[u8]) {
    let mut name = octets::zeros::<{ streams::NAME_SPACE }>();
    match streams::argument(rt, i, &mut name) {
        Ok(n) => append_named(rt, errors, &name[..n], blocks),
        Err(error) => streams::say_why(errors, b"deck's name", error),
    }
}

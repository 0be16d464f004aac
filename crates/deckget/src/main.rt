// Gets certificates back from a deck: `deckget NUMBER certificate < DECK > FILE`, or `issuer` for the issuer's.
//
// It reads the deck on standard input whole, and writes that side of every record of that number to standard output, in
// the deck's order. Where there is no such record, where there is more than one, where the deck is too long or a call of
// the system fails, standard error says so; other arguments get the usage line there. The exit status is 0 in each case;
// `bin/deckget` makes a status of what was said.
#![tactic(auto)]

mod sides;
mod words;

ghost use Rattle.retrieval.specs.Fetching.{sides_of};
ghost use Rattle.deckget.specs.Workings.Outcomes.{WroteAll};

use lint::Side;
use std::io::{Print, Read};
use std::rt::Env;

// The program takes as much of deck as `decklint` ("It lends the linter 65,536 octets of room and takes as much of
// deck").
const MOST: usize = 65536;

// One octet more tells a deck that is too long.
const SPACE: usize = 65537;

// A side of any record fits in so many octets: a record has at most 16,387, and three of them are its profile and the
// certificate's length.
const SIDE: usize = 16384;

fn write(output: &impl Print, errors: &impl Print, side: &[u8]) -> bool {
    streams::write_out(output, errors, side, b"standard output")
}

// Writes that side of each record of the number, and answers how many records there are; nothing where a write failed,
// and it was said why. There is always room for a side.
fn write_sides(
    output: &impl Print,
    errors: &impl Print,
    deck: &[u8],
    number: usize,
    side: Side,
) -> Option<usize>
    ensures { WroteAll (sides_of side number deck.now) result }
{
    let mut space = octets::zeros::<SIDE>();
    let mut position: usize = 0;
    let mut count: usize = 0;
    while let Some(found) = retrieval::fetch(deck, position, number, side, &mut space) {
        let fetched = found.unwrap();
        let end = fetched.length;
        if !write(output, errors, &space[..end]) {
            return None;
        }
        position = fetched.next;
        count += 1;
    }
    Some(count)
}

// The same, and says where it is not one side.
fn get(output: &impl Print, errors: &impl Print, deck: &[u8], number: usize, side: Side) {
    if let Some(count) = write_sides(output, errors, deck, number, side) {
        words::say_count(errors, number, count);
    }
}

// The same of the deck on standard input.
fn get_from_input(
    input: &mut impl Read,
    output: &impl Print,
    errors: &impl Print,
    number: usize,
    side: Side,
) {
    let mut space = octets::zeros::<SPACE>();
    let n = match streams::read_all(input, &mut space) {
        Ok(n) => n,
        Err(error) => return streams::say_why(errors, b"standard input", error),
    };
    if n > MOST {
        return words::say_too_long(errors);
    }
    get(output, errors, &space[..n], number, side);
}

// The side that argument i names.
fn side_in(rt: &impl Env, i: usize) -> Option<Side> {
    let mut text = octets::zeros::<{ streams::NAME_SPACE }>();
    let n = streams::argument(rt, i, &mut text).ok()?;
    sides::side_named(&text[..n])
}

fn main(rt: HostRuntime) {
    let errors = rt.stderr();
    if streams::arg_count(&rt, 4) != 3 {
        return words::say_how_to_call(&errors);
    }
    let Some(number) = streams::number_argument(
        &rt,
        1,
        &mut octets::zeros::<{ streams::NAME_SPACE }>(),
    ) else {
        return words::say_how_to_call(&errors);
    };
    let Some(side) = side_in(&rt, 2) else {
        return words::say_how_to_call(&errors);
    };
    get_from_input(&mut rt.stdin(), &rt, &errors, number as usize, side);
}

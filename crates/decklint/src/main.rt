// Lists the deck on standard input (document 01, "The deck"): prints what `printed` of the crate `listing` says of it
// (`writes_printed` there: whoever writes one fill after the other, until all is put, writes that).
//
// Nothing is written before the whole deck has been read, so where a read fails standard output stays empty. Where a write
// fails the program ends there, and the listing lacks its last line. Either is said on standard error, by a line. An
// argument gets the usage line there, and nothing is read. The exit status is 0 in each case; `bin/decklint` makes a status
// of what was said.
#![tactic(auto)]

ghost use Rattle.std.specs.Prelude.{◌≤◌, length};
ghost use Rattle.listing.specs.Filling.{item_space};

use std::io::{Print, Read};
use std::ops::ControlFlow;

fn write(output: &impl Print, errors: &impl Print, octets: &[u8]) -> bool {
    streams::write_out(output, errors, octets, b"decklint: standard output")
}

// A buffer in which any item has space is filled and written until all is put.
fn list_deck(output: &impl Print, errors: &impl Print, deck: &[u8], out: &mut [u8])
    requires { item_space ≤ length out.old }
{
    let mut progress = listing::start();
    loop {
        let filling = listing::fill_listing(out, deck, progress);
        if !write(output, errors, &out[..filling.end]) {
            return;
        }
        let ControlFlow::Continue(next) = filling.next else {
            return;
        };
        progress = next;
    }
}

// Lists the deck on standard input.
fn list_input(input: &mut impl Read, output: &impl Print, errors: &impl Print) {
    let mut space = octets::zeros::<{ listing::DECK_SPACE }>();
    let mut out = octets::zeros::<{ listing::LISTING_SPACE }>();
    match streams::read_all(input, &mut space) {
        Ok(n) => list_deck(output, errors, &space[..n], &mut out),
        Err(error) => streams::say_why(errors, b"decklint: standard input", error),
    }
}

fn say_usage(errors: &impl Print) {
    streams::say_text(errors, b"usage: decklint < DECK\n");
}

fn main(rt: HostRuntime) {
    if streams::arg_count(&rt, 2) != 1 {
        return say_usage(&rt.stderr());
    }
    list_input(&mut rt.stdin(), &rt, &rt.stderr());
}

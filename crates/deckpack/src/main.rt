// Adds a record to a deck: `deckpack DECK NUMBER PROFILE CERTIFICATE ISSUER`, or writes its blocks to standard output:
// `deckpack NUMBER PROFILE CERTIFICATE ISSUER`.
//
// NUMBER and PROFILE are decimal digits, CERTIFICATE and ISSUER name files in DER. A refusal goes to standard error, as
// `refused 3: the profile is not 1, 2, 3 or 4`, and then nothing is written; so it is where the arguments are no such four
// or five, which the usage line says, and where a file cannot be read. A deck is opened once the record is judged. The
// exit status is 0 in each case; `bin/deckpack` makes a status of what was said.
#![tactic(auto)]

mod appending;
mod words;

ghost use Rattle.std.specs.Prelude.{◌≡◌, min, ◌≤◌};

use std::io::Print;
use std::rt::{Env, Files};

// The most blocks of a record, 33, take so many octets.
const ROOM: usize = 16896;

// One octet more than a side may have: of a longer file so many are read, and the writer refuses them.
const SIDE: usize = 8193;

// Where the record's blocks go.
#[derive(Clone, Copy)]
enum Target {
    Output,
    // the file that the first argument names
    Deck,
}

fn hand_out(rt: &(impl Env + Files + Print), errors: &impl Print, target: Target, blocks: &[u8]) {
    match target {
        Target::Output => {
            streams::write_out(rt, errors, blocks, b"standard output");
        }
        Target::Deck => appending::append(rt, errors, 1, blocks),
    }
}

// Hands the record's blocks out, or says why not.
fn pack(
    rt: &(impl Env + Files + Print),
    errors: &impl Print,
    target: Target,
    number: u32,
    profile: u8,
    certificate: &[u8],
    issuer: &[u8],
) {
    let mut room = [0u8; ROOM];
    let answer = writer::write_record(number, profile, certificate, issuer, &mut room);
    match answer {
        Ok(count) => hand_out(rt, errors, target, &room[..512 * count]),
        Err(r) => words::say_refusal(errors, r),
    }
}

// The argument that says the record's number. Behind it stand the profile and the names of the two files.
fn number_place(target: Target) -> usize
    ensures { result ≤ 2 }
{
    match target {
        Target::Output => 1,
        Target::Deck => 2,
    }
}

// The same of the two files.
fn pack_files(
    rt: &(impl Env + Files + Print),
    errors: &impl Print,
    target: Target,
    number: u32,
    profile: u8,
) {
    let place = number_place(target);
    let mut certificate = [0u8; SIDE];
    let Ok(n) = streams::load(rt, errors, place + 2, &mut certificate) else {
        return;
    };
    let mut issuer = [0u8; SIDE];
    let Ok(m) = streams::load(rt, errors, place + 3, &mut issuer) else {
        return;
    };
    pack(
        rt,
        errors,
        target,
        number,
        profile,
        &certificate[..n],
        &issuer[..m],
    );
}

// A profile past 255 counts as 255, which is refused by 3 as every profile is that is not 1, 2, 3 or 4.
fn profile_octet(profile: u32) -> u8
    ensures { result ≡ min profile 255 }
{
    if profile < 255 { profile as u8 } else { 255 }
}

// The same of number and profile.
fn pack_arguments(rt: &(impl Env + Files + Print), errors: &impl Print, target: Target) {
    let place = number_place(target);
    let mut text = octets::zeros::<{ streams::NAME_SPACE }>();
    let Some(number) = streams::number_argument(rt, place, &mut text) else {
        return words::say_usage(errors);
    };
    let Some(profile) = streams::number_argument(rt, place + 1, &mut text) else {
        return words::say_usage(errors);
    };
    pack_files(rt, errors, target, number, profile_octet(profile));
}

fn main(rt: HostRuntime) {
    let errors = rt.stderr();
    match streams::arg_count(&rt, 7) {
        5 => pack_arguments(&rt, &errors, Target::Output),
        6 => pack_arguments(&rt, &errors, Target::Deck),
        _ => words::say_usage(&errors),
    }
}

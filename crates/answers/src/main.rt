// Answers each frame on standard input with a line, for test benches. A frame is a kind, a length in two octets, the
// high one first, and that many octets. Kind 0 asks for a certificate and gets `certificate`, `unsound at P`,
// `unordered at P` or `departs at P`; kind s, from 1 to 10, asks for the value of the extension that rule 340+s judges,
// and gets `value` or `no value`; so does kind 15 for slot 11, since 11 asks for sound DER and gets `sound`, `unsound at P` or
// `unordered at P`. The input ends with its last whole frame.
//
// Kind 12 asks for a call of the linter. Its octets are the profile, the room's length in three octets and the
// certificate's in two, the high one first, the certificate, and as the rest the issuer. The linter gets a room of that
// length, at most 65,536, whose octet at place i is i modulo 251. The line is `findings N` or `refused R side S at P`,
// and directly behind it come the room's octets as the linter left them, as many as its length says. A frame that is
// too short for its own lengths, or asks for more room, gets the line `no call` and nothing behind it.
//
// Kind 13 asks for a call of the deck's writer. Its octets are the record's number in four octets, and then as in kind
// 12, the room too. The line is `blocks N` or `refused R side S at P`; the room's octets and `no call` are as there.
//
// Kind 14 asks for the reading of a deck. Its octets are six, the room's length and the deck's in three octets each, both at
// most 65,536, and the deck's octets come directly behind the frame. The room is filled once as in kind 12 and lent
// again at each step, from block 0 to the end. A step that hands out a record writes `record NUMBER profile P length N
// findings K` or `record NUMBER profile P length N refused R side S at P`, and directly behind that line the room's
// octets; one that meets a lost block writes `lost POSITION short`, `unsound` or `stray`. The last line is `records R
// blocks B lost L`. Other than six octets, or more of room or of deck, get the line `no call`, and no deck is read; a
// deck that is cut off by the end of the input gets nothing.
#![tactic(auto)]

mod calls;
mod decks;
mod lines;

use asn::Misfit;
use der::Fault;
use std::io::{Print, Read};

fn answer_form(output: &impl Print, found: Result<(), Misfit>) {
    match found {
        Ok(()) => lines::put_out(output, b"certificate\n"),
        Err(Misfit::Wrong(place)) => lines::say(output, b"departs at ", place),
        Err(Misfit::Stranger) => lines::say(output, b"departs at ", 0),
    }
}

fn answer_certificate(output: &impl Print, octets: &[u8]) {
    match der::check_der(octets) {
        Ok(()) => answer_form(output, asn::check_certificate(octets)),
        Err(Fault::Unsound(place)) => lines::say(output, b"unsound at ", place),
        Err(Fault::Unordered(place)) => lines::say(output, b"unordered at ", place),
    }
}

fn answer_encoding(output: &impl Print, octets: &[u8]) {
    match der::check_der(octets) {
        Ok(()) => lines::put_out(output, b"sound\n"),
        Err(Fault::Unsound(place)) => lines::say(output, b"unsound at ", place),
        Err(Fault::Unordered(place)) => lines::say(output, b"unordered at ", place),
    }
}

fn answer_value(output: &impl Print, octets: &[u8], slot: usize) {
    if asn::value_ok(octets, slot, 0, octets.len()) {
        lines::put_out(output, b"value\n");
    } else {
        lines::put_out(output, b"no value\n");
    }
}

fn answer_frame(output: &impl Print, kind: u8, frame: &[u8], room: &mut [u8]) {
    match kind {
        0 => answer_certificate(output, frame),
        11 => answer_encoding(output, frame),
        12 => calls::answer_call(output, frame, room),
        13 => calls::answer_writing(output, frame, room),
        15 => answer_value(output, frame, 11),
        _ => answer_value(output, frame, usize::from(kind)),
    }
}

// Fills the front of a buffer from the input, and says whether the input went so far.
fn fill_from(input: &mut impl Read, space: &mut [u8]) -> bool {
    input.read_exact(space).is_ok()
}

// Fills the deck from the input, answers it, and says whether it was whole.
fn read_deck(input: &mut impl Read, output: &impl Print, deck: &mut [u8], room: &mut [u8]) -> bool {
    if !fill_from(input, deck) {
        return false;
    }
    decks::answer_deck(output, deck, room);
    true
}

fn no_deck(output: &impl Print) -> bool {
    calls::say_no_call(output);
    true
}

// Answers a frame of kind 14, whose n octets stand at the front of the space that then takes the deck, and says whether
// to go on.
fn answer_next_deck(
    input: &mut impl Read,
    output: &impl Print,
    n: usize,
    space: &mut [u8],
    room: &mut [u8],
) -> bool {
    let size = octets::number(space, 0, 0, 3);
    let length = octets::number(space, 3, 0, 3);
    if n != 6 {
        return no_deck(output);
    }
    if room.len() < size {
        return no_deck(output);
    }
    if space.len() < length {
        return no_deck(output);
    }
    read_deck(input, output, &mut space[..length], &mut room[..size])
}

// Reads a frame of n octets to the front of the space, answers it, and says whether to go on.
fn answer_next_of(
    input: &mut impl Read,
    output: &impl Print,
    kind: u8,
    n: usize,
    space: &mut [u8],
    room: &mut [u8],
) -> bool {
    if space.len() < n {
        return false;
    }
    if !fill_from(input, &mut space[..n]) {
        return false;
    }
    if kind == 14 {
        return answer_next_deck(input, output, n, space, room);
    }
    answer_frame(output, kind, &space[..n], room);
    true
}

// Reads a frame's kind and length, answers the frame, and says whether to go on.
fn answer_next(
    input: &mut impl Read,
    output: &impl Print,
    space: &mut [u8],
    room: &mut [u8],
) -> bool {
    let mut head = [0u8; 3];
    if !fill_from(input, &mut head) {
        return false;
    }
    answer_next_of(
        input,
        output,
        octets::octet(&head, 0),
        octets::pair(&head, 1),
        space,
        room,
    )
}

// A proved loop has to end, and nothing says that its input does: it takes as many turns as no run uses up.
fn answer_all(input: &mut impl Read, output: &impl Print, space: &mut [u8], room: &mut [u8]) {
    for _ in 0..u64::MAX {
        if !answer_next(input, output, space, room) {
            return;
        }
    }
}

// Frames and decks come into `space`, and the linter, the writer and the reader get `room`.
fn main(rt: HostRuntime) {
    let mut space = octets::zeros::<65536>();
    let mut room = octets::zeros::<65536>();
    answer_all(&mut rt.stdin(), &rt, &mut space, &mut room);
}

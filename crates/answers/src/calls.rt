// Calls of the linter and of the writer.
ghost use Rattle.std.specs.Prelude.{◌≡◌, length};
ghost use Rattle.lint.specs.Answers.{room_of};
ghost use Rattle.writer.specs.Answers.{write_room};
ghost use Rattle.answers.specs.Rooms.{fresh_room, room_of_call, room_of_writing};

use crate::lines::{put_out, say_answer, say_written};
use std::io::Print;

// Octets that differ from their neighbours and from those 256 places on, so that a changed one shows.
pub fn fill(room: &mut [u8])
    ensures { room.new ≡ fresh_room (length room.old) }
{
    for (i, b) in room.iter_mut().enumerate() {
        *b = (i % 251) as u8;
    }
}

pub fn say_no_call(output: &impl Print) {
    put_out(output, b"no call\n");
}

fn call_linter(output: &impl Print, certificate: &[u8], issuer: &[u8], profile: u8, room: &mut [u8])
    ensures { room.new ≡ room_of certificate.now issuer.now profile (fresh_room (length room.old)) }
{
    fill(room);
    say_answer(output, lint::lint(certificate, issuer, profile, room));
    put_out(output, room);
}

// Answers a frame of kind 12 with a part of the room that is lent.
pub fn answer_call(output: &impl Print, frame: &[u8], room: &mut [u8])
    ensures { room.new ≡ room_of_call frame.now room.old }
{
    let profile = octets::octet(frame, 0);
    let size = octets::number(frame, 1, 0, 3);
    let cut = 6 + octets::pair(frame, 4);
    if frame.len() < cut {
        return say_no_call(output);
    }
    if room.len() < size {
        return say_no_call(output);
    }
    call_linter(
        output,
        &frame[6..cut],
        &frame[cut..],
        profile,
        &mut room[..size],
    );
}

fn call_writer(
    output: &impl Print,
    number: u32,
    certificate: &[u8],
    issuer: &[u8],
    profile: u8,
    room: &mut [u8],
)
    ensures { room.new ≡ write_room number profile certificate.now issuer.now (fresh_room (length room.old)) }
{
    fill(room);
    say_written(
        output,
        writer::write_record(number, profile, certificate, issuer, room),
    );
    put_out(output, room);
}

// Answers a frame of kind 13 with a part of the room that is lent.
pub fn answer_writing(output: &impl Print, frame: &[u8], room: &mut [u8])
    ensures { room.new ≡ room_of_writing frame.now room.old }
{
    let number = 65536 * octets::pair(frame, 0) + octets::pair(frame, 2);
    let profile = octets::octet(frame, 4);
    let size = octets::number(frame, 5, 0, 3);
    let cut = 10 + octets::pair(frame, 8);
    if frame.len() < cut {
        return say_no_call(output);
    }
    if room.len() < size {
        return say_no_call(output);
    }
    call_writer(
        output,
        number as u32,
        &frame[10..cut],
        &frame[cut..],
        profile,
        &mut room[..size],
    );
}

// The linter and the deck's writer for programs in C and Rust: include/dlozamife.h has the declarations. An answer is one
// number (specs/Packing.antt).
#![tactic(auto)]

ghost use Rattle.std.specs.Prelude.{◌≡◌};
ghost use Rattle.lint.specs.Values.{lint_values};
ghost use Rattle.lint.specs.Answers.{room_of};
ghost use Rattle.writer.specs.Values.{write_values};
ghost use Rattle.writer.specs.Answers.{write_room};
ghost use Rattle.export.specs.Packing.{packed_values};
ghost use Rattle.export.specs.Workings.Packing.{Packable};

use refusals::Values;

// 2^63: a count is below it.
const REFUSED: u64 = 9223372036854775808;

// 2^32 and 2^16: number, side and place have sixteen bits each.
const NUMBER: u64 = 4294967296;

const SIDE: u64 = 65536;

fn packed(v: Values) -> u64
    requires { Packable v }
    ensures { result ≡ packed_values v }
{
    if v.number == 0 {
        return v.count as u64;
    }
    let number = v.number as u64;
    let side = v.side as u64;
    let place = v.place as u64;
    REFUSED + number * NUMBER + side * SIDE + place
}

// Lints a certificate with its issuer's.
#[unsafe(no_mangle)]
pub extern "C" fn dlozamife_lint(
    certificate: &[u8],
    issuer: &[u8],
    profile: u8,
    room: &mut [u8],
) -> u64
    ensures value { result ≡ packed_values (lint_values certificate.now issuer.now profile room.old) }
    ensures room_after { room.new ≡ room_of certificate.now issuer.now profile room.old }
{
    let answer = lint::lint(certificate, issuer, profile, room);
    packed(lint::answer_values(answer))
}

// Writes a record's blocks.
#[unsafe(no_mangle)]
pub extern "C" fn dlozamife_write_record(
    number: u32,
    profile: u8,
    certificate: &[u8],
    issuer: &[u8],
    room: &mut [u8],
) -> u64
    ensures value { result ≡ packed_values (write_values number profile certificate.now issuer.now room.old) }
    ensures room_after { room.new ≡ write_room number profile certificate.now issuer.now room.old }
{
    let answer = writer::write_record(number, profile, certificate, issuer, room);
    packed(writer::placing_values(answer))
}

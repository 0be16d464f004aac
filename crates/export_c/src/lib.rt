// The linter and the deck's writer for programs in C: include/dlozamife.h has the declarations. Each function is that of the
// crate `export` by its name, with its clauses: a static library is no library for other crates, so it is a crate apart.
#![tactic(auto)]

ghost use Rattle.std.specs.Prelude.{◌≡◌};
ghost use Rattle.lint.specs.Values.{lint_values};
ghost use Rattle.lint.specs.Answers.{room_of};
ghost use Rattle.writer.specs.Values.{write_values};
ghost use Rattle.writer.specs.Answers.{write_room};
ghost use Rattle.export.specs.Packing.{packed_values};

// Lints a certificate with its issuer's.
#[unsafe(no_mangle)]
pub extern "C" fn dlozamife_lint(
    certificate: &[u8],
    issuer: &[u8],
    profile: u8,
    room: &mut [u8],
) -> u64
    ensures value { result ≡ packed_values (lint_values certificate.now issuer.now profile room.old) }
    ensures room_after { room.new ≡ room_of certificate.now issuer.now profile room.old }
{
    export::dlozamife_lint(certificate, issuer, profile, room)
}

// Writes a record's blocks.
#[unsafe(no_mangle)]
pub extern "C" fn dlozamife_write_record(
    number: u32,
    profile: u8,
    certificate: &[u8],
    issuer: &[u8],
    room: &mut [u8],
) -> u64
    ensures value { result ≡ packed_values (write_values number profile certificate.now issuer.now room.old) }
    ensures room_after { room.new ≡ write_room number profile certificate.now issuer.now room.old }
{
    export::dlozamife_write_record(number, profile, certificate, issuer, room)
}

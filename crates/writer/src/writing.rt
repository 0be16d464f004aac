// The writer: refusals 1, 2, 3, 8 and 7 in this order, then the record's blocks (document 01, "The deck").
ghost use Rattle.std.specs.Prelude.{◌≡◌, ◌++◌, ◌∷◌, [], ◌+◌, ◌*◌, ◌≤◌, ◌<◌, length, take, drop};
ghost use Rattle.octets.specs.Numbers.{pair_of, quad_of};
ghost use Rattle.blocks.specs.Block.{block_of, check_of};
ghost use Rattle.blocks.specs.Record.{record_of, parts};
ghost use Rattle.writer.specs.Cutting.{blocks_from, blocks_of, end_to_end};
ghost use Rattle.writer.specs.Values.{placing_values};
ghost use Rattle.writer.specs.Answers.{Written};

use crate::reasons::{NotWritten, not_written_values};
use refusals::{Values, unrefused};

// The paper's number, side, place and count of blocks.
pub fn placing_values(placing: Result<usize, NotWritten>) -> Values
    ensures { result ≡ placing_values placing }
{
    match placing {
        Ok(count) => unrefused(count),
        Err(r) => not_written_values(r),
    }
}

// Lays a record out at the front of the desk: "profile octet, certificate length in two octets, certificate, issuer".
fn lay_out(profile: u8, certificate: &[u8], issuer: &[u8], desk: &mut [u8])
    requires { 3 + length certificate.now + length issuer.now ≤ length desk.old }
    ensures { desk.new ≡ record_of profile certificate.now issuer.now
        ++ drop (3 + length certificate.now + length issuer.now) desk.old }
{
    let n = certificate.len();
    desk[0] = profile;
    desk[1] = (n / 256 % 256) as u8;
    desk[2] = (n % 256) as u8;
    octets::copy(certificate, 0, n, desk, 3);
    octets::copy(issuer, 0, issuer.len(), desk, 3 + n);
}

// Record number, record length, part, and the octet that is zero.
fn put_head(number: u32, n: usize, part: u8, block: &mut [u8])
    requires { length block.old ≡ 512 }
    ensures { block.new ≡ (quad_of number ++ (pair_of n ++ (part ∷ 0 ∷ []))) ++ drop 8 block.old }
{
    block[0] = (number / 65536 / 256 % 256) as u8;
    block[1] = (number / 65536 % 256) as u8;
    block[2] = (number / 256 % 256) as u8;
    block[3] = (number % 256) as u8;
    block[4] = (n / 256 % 256) as u8;
    block[5] = (n % 256) as u8;
    block[6] = part;
    block[7] = 0;
}

// The check of the 510 octets before it.
fn put_check(block: &mut [u8])
    requires { length block.old ≡ 512 }
    ensures { block.new ≡ take 510 block.old ++ pair_of (check_of (take 510 block.old)) }
{
    let check = blocks::check_of(block);
    block[510] = (check / 256 % 256) as u8;
    block[511] = (check % 256) as u8;
}

// One block of a record of n octets that lies on the desk.
fn put_block(number: u32, n: usize, part: usize, desk: &[u8], block: &mut [u8])
    requires { (length block.old ≡ 512) × (part < 256) × (part * 502 + 502 ≤ length desk.now) }
    ensures { block.new ≡ block_of number n part (take 502 (drop (part * 502) desk.now)) }
{
    put_head(number, n, part as u8, block);
    octets::copy(desk, part * 502, 502, block, 8);
    put_check(block);
}

// All its blocks, `count` of them, at the front of the room: "parts from 0, 502 octets each".
fn put_blocks(number: u32, n: usize, count: usize, desk: &[u8], room: &mut [u8])
    requires { (n < 65536) × (count < 256) × (count * 502 ≤ length desk.now) × (512 * count ≤ length room.old) }
    ensures { room.new ≡ end_to_end (blocks_from number n 0 count desk.now) ++ drop (512 * count) room.old }
{
    for part in 0..count {
        let at = part * 512;
        let end = at + 512;
        put_block(number, n, part, desk, &mut room[at..end]);
    }
}

// Writes the record's blocks, `count` of them, to the front of the room.
fn put_record(
    number: u32,
    profile: u8,
    certificate: &[u8],
    issuer: &[u8],
    count: usize,
    room: &mut [u8],
)
    requires { (length certificate.now ≤ 8192) × (length issuer.now ≤ 8192)
        × (count ≡ parts (length (record_of profile certificate.now issuer.now))) × (512 * count ≤ length room.old) }
    ensures { room.new ≡ end_to_end (blocks_of number (record_of profile certificate.now issuer.now))
        ++ drop (512 * count) room.old }
{
    let mut desk = [0u8; blocks::DESK];
    let n = 3 + certificate.len() + issuer.len();
    lay_out(profile, certificate, issuer, &mut desk);
    put_blocks(number, n, count, &desk, room);
}

// So many blocks, written to the room, or why there are none.
pub fn write_record(
    number: u32,
    profile: u8,
    certificate: &[u8],
    issuer: &[u8],
    room: &mut [u8],
) -> Result<usize, NotWritten>
    ensures { Written number profile certificate.now issuer.now room.old result room.new }
{
    lint::admit(certificate.len(), issuer.len(), profile)?;
    if number == 0 {
        return Err(NotWritten::NoNumber);
    }
    let count = blocks::parts_of(3 + certificate.len() + issuer.len());
    if room.len() < 512 * count {
        return Err(NotWritten::NoRoom);
    }
    put_record(number, profile, certificate, issuer, count, room);
    Ok(count)
}

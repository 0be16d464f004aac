// A record's octets, as they were written: profile, certificate and issuer.
ghost use Rattle.std.specs.Prelude.{◌≡◌, ◌≤◌, length};
ghost use Rattle.reader.specs.Runs.{from, record_from};
ghost use Rattle.reader.specs.Finding.{found_at};
ghost use Rattle.reader.specs.declared.finding.Found.TheVariants as Found;
ghost use Rattle.reader.specs.Taking.{TakenRecord};
ghost use Rattle.reader.specs.Workings.Desk.{LaidOut};

use crate::finding::{Found, find};
use crate::gathering::gather;

// How a record of that number lies in a buffer: the profile at 0, the certificate from 3 on, behind it to the end the
// issuer.
#[derive(Clone, Copy)]
pub struct Layout {
    pub number: usize,
    // of the whole record
    pub length: usize,
    // of the certificate
    pub certificate: usize,
}

// Why no record was put into a buffer.
#[derive(Clone, Copy)]
pub enum NotTaken {
    // the buffer has fewer octets than the record
    NoRoom,
    // no record starts at this block
    NoRecord,
}

// Puts the octets of the record of that number and length at the front of the buffer.
fn lay_out(deck: &[u8], position: usize, number: usize, n: usize, buffer: &mut [u8]) -> Layout
    requires { (found_at deck.now position ≡ Found.Record number n) × (n ≤ length buffer.old) }
    ensures { LaidOut number (record_from (from deck.now position)) buffer.old result buffer.new }
{
    let mut desk = [0u8; blocks::DESK];
    gather(deck, position, blocks::parts_of(n), &mut desk);
    octets::copy(&desk, 0, n, buffer, 0);
    Layout {
        number: number,
        length: n,
        certificate: octets::pair(&desk, 1),
    }
}

// The record that starts at the block, at the front of the buffer; or nothing changed.
pub fn take_record(deck: &[u8], position: usize, buffer: &mut [u8]) -> Result<Layout, NotTaken>
    ensures { TakenRecord deck.now position buffer.old result buffer.new }
{
    let Found::Record(number, n) = find(deck, position) else {
        return Err(NotTaken::NoRecord);
    };
    if buffer.len() < n {
        return Err(NotTaken::NoRoom);
    }
    Ok(lay_out(deck, position, number, n, buffer))
}

// One step of the reader: what stands at a block, a record with the linter's complete answer.
ghost use Rattle.std.specs.Prelude.{◌≡◌, ◌+◌, ◌≤◌, length, take};
ghost use Rattle.blocks.specs.Record.{certificate_length};
ghost use Rattle.reader.specs.Runs.{from, record_from};
ghost use Rattle.reader.specs.Finding.{found_at};
ghost use Rattle.reader.specs.declared.finding.Found.TheVariants as Found;
ghost use Rattle.reader.specs.Stepping.{Stepped, item_blocks};
ghost use Rattle.reader.specs.Workings.Desk.{Linted};

use crate::finding::{Found, Loss, find};
use crate::gathering::gather;
use lint::Refusal;

#[derive(Clone, Copy)]
pub struct Record {
    pub number: usize,
    pub profile: u8,
    pub length: usize,
    pub answer: Result<usize, Refusal>,
}

#[derive(Clone, Copy)]
pub enum Item {
    Record(Record),
    Lost(Loss),
    End,
}

// The record of n octets at the front of the desk, with the linter's answer.
fn lint_desk(desk: &[u8], number: usize, n: usize, room: &mut [u8]) -> Record
    requires { (3 + certificate_length desk.now ≤ n) × (n ≤ length desk.now) }
    ensures { Linted number (take n desk.now) room.old result room.new }
{
    let profile = octets::octet(desk, 0);
    let cut = 3 + octets::pair(desk, 1);
    let answer = lint::lint(&desk[3..cut], &desk[cut..n], profile, room);
    Record {
        number: number,
        profile: profile,
        length: n,
        answer: answer,
    }
}

// The record of that number and length that starts at the block, with the linter's answer.
fn lint_record(deck: &[u8], position: usize, number: usize, n: usize, room: &mut [u8]) -> Record
    requires { found_at deck.now position ≡ Found.Record number n }
    ensures { Linted number (record_from (from deck.now position)) room.old result room.new }
{
    let mut desk = [0u8; blocks::DESK];
    gather(deck, position, blocks::parts_of(n), &mut desk);
    lint_desk(&desk, number, n, room)
}

pub fn step(deck: &[u8], position: usize, room: &mut [u8]) -> Item
    ensures { Stepped deck.now position room.old result room.new }
{
    let found = find(deck, position);
    match found {
        Found::Record(number, n) => Item::Record(lint_record(deck, position, number, n, room)),
        Found::Lost(loss) => Item::Lost(loss),
        Found::End => Item::End,
    }
}

// How many blocks are passed with an item: the next one stands so much further.
pub fn item_blocks(item: Item) -> usize
    ensures { result ≡ item_blocks item }
{
    match item {
        Item::Record(record) => blocks::parts_of(record.length),
        Item::Lost(_) => 1,
        Item::End => 0,
    }
}

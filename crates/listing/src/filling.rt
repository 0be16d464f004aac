// The whole listing, a bufferful at a time. A program that lists a deck reads it, fills a buffer, writes what was put, and
// goes on until all is put: what it prints is settled here.
ghost use Rattle.std.specs.Prelude.{◌≡◌, ◌+◌, ◌≤◌, length};
ghost use Rattle.octets.specs.Numbers.{largest};
ghost use Rattle.reader.specs.Runs.{blocks};
ghost use Rattle.reader.specs.Stepping.{item_blocks};
ghost use Rattle.texts.specs.Putting.{Grown};
ghost use Rattle.listing.specs.Lines.{total_line, too_long_line};
ghost use Rattle.listing.specs.Filling.{nothing_listed, advanced, counts_in, item_space, if_space, all_of, portion_of};
ghost use Rattle.listing.specs.Filling.{items_from, deck_portion, Filled};

use crate::lines::{item_lines, too_long, total_line};
use reader::{Counts, Item};
use report::WIDTH;
use std::ops::ControlFlow;
use texts::Text;

// "It lends the linter 65,536 octets of room and takes as much of deck" (document 01, "The deck").
const MOST: usize = 65536;

// A caller who reads so much of a deck can tell one that is too long.
pub const DECK_SPACE: usize = 65537;

// No finding's line has more octets.
const FINDING: usize = 37;

// So many octets hold all lines of any item whose findings fit in the linter's room, and the last line.
const ITEM: usize = 83 + FINDING * (MOST / WIDTH);

// A buffer of so many octets takes at least one item at each fill, and most listings whole.
pub const LISTING_SPACE: usize = 393216;

// How far a listing has come: the block that is listed next, and how many records and lost blocks stand before it.
#[derive(Clone, Copy)]
pub struct Progress {
    pub position: usize,
    pub records: usize,
    pub lost: usize,
}

// What a fill has put: the first `end` octets of the buffer. Unless that is all, the listing goes on at `next`.
#[derive(Clone, Copy)]
pub struct Filling {
    pub end: usize,
    // how far the listing has come, and whether it goes on from there or all of it has been put
    pub next: ControlFlow<Progress, Progress>,
}

pub fn start() -> Progress
    ensures { result ≡ nothing_listed }
{
    Progress {
        position: 0,
        records: 0,
        lost: 0,
    }
}

// Behind an item.
fn advance(p: Progress, item: Item) -> Progress
    requires { p.position + item_blocks item ≤ largest }
    ensures { result ≡ advanced p item }
{
    let position = p.position + reader::item_blocks(item);
    match item {
        Item::Record(_) => Progress {
            position,
            records: p.records.saturating_add(1),
            ..p
        },
        Item::Lost(_) => Progress {
            position,
            lost: p.lost.saturating_add(1),
            ..p
        },
        Item::End => p,
    }
}

// The last line, which is no longer than an item's lines.
fn last_line(text: &mut Text, p: Progress, total: usize)
    ensures spelled { Grown (total_line (counts_in p) total) text.old text.new }
    ensures total_len_bound { length (total_line (counts_in p) total) ≤ item_space }
{
    let counts = Counts {
        records: p.records,
        lost: p.lost,
    };
    total_line(text, counts, total);
}

// Lists a deck that is not too long. The reader's step lends the linter the room.
fn fill_items(out: &mut [u8], deck: &[u8], from: Progress, room: &mut [u8]) -> Filling
    requires { (length deck.now ≤ 65536) × (length room.old ≡ 65536) }
    ensures { Filled (portion_of (length out.old) (length (blocks deck.now)) 0 from
        (items_from deck.now from.position)) out.old result out.new }
{
    let mut text = Text::new(out);
    let mut p = from;
    while text.has_space(ITEM) {
        let item = reader::step(deck, p.position, room);
        if reader::item_blocks(item) == 0 {
            last_line(&mut text, p, reader::block_count(deck));
            return Filling {
                end: text.octets().len(),
                next: ControlFlow::Break(p),
            };
        }
        item_lines(&mut text, p.position, item, room);
        p = advance(p, item);
    }
    Filling {
        end: text.octets().len(),
        next: ControlFlow::Continue(p),
    }
}

// The only line of a deck that is too long.
fn fill_too_long(out: &mut [u8], p: Progress) -> Filling
    ensures { Filled (if_space (length out.old) 0 p (all_of p too_long_line)) out.old result out.new }
{
    let mut text = Text::new(out);
    if !text.has_space(ITEM) {
        return Filling {
            end: 0,
            next: ControlFlow::Continue(p),
        };
    }
    too_long(&mut text);
    Filling {
        end: text.octets().len(),
        next: ControlFlow::Break(p),
    }
}

// Fills the buffer with the listing of the deck, from a progress on: whole items, as long as any other still fits.
pub fn fill_listing(out: &mut [u8], deck: &[u8], from: Progress) -> Filling
    ensures { Filled (deck_portion deck.now from (length out.old)) out.old result out.new }
{
    if deck.len() > MOST {
        return fill_too_long(out, from);
    }
    let mut room = octets::zeros::<MOST>();
    fill_items(out, deck, from, &mut room)
}

// Decks to read.
ghost use Rattle.std.specs.Prelude.{◌≡◌};
ghost use Rattle.reader.specs.Events.{events};
ghost use Rattle.answers.specs.Rooms.{room_past, room_of_deck};

use crate::calls::fill;
use crate::lines::{put_out, say_counts, say_lost, say_record};
use reader::Item;
use std::io::Print;

// Writes what a step gave, with the room that it left.
fn say_item(output: &impl Print, item: Item, position: usize, room: &[u8]) {
    match item {
        Item::Record(record) => {
            say_record(output, record);
            put_out(output, room);
        }
        Item::Lost(loss) => say_lost(output, position, loss),
        Item::End => {}
    }
}

// Steps from the first block on until no block is passed.
fn say_steps(output: &impl Print, deck: &[u8], room: &mut [u8])
    ensures { room.new ≡ room_past room.old (events deck.now) }
{
    let mut position: usize = 0;
    loop {
        let item = reader::step(deck, position, room);
        let passed = reader::item_blocks(item);
        if passed == 0 {
            return;
        }
        say_item(output, item, position, room);
        position += passed;
    }
}

// Answers a frame of kind 14 with the deck that came behind it.
pub fn answer_deck(output: &impl Print, deck: &[u8], room: &mut [u8])
    ensures { room.new ≡ room_of_deck deck.now room.old }
{
    fill(room);
    say_steps(output, deck, room);
    let counts = reader::tally(deck);
    say_counts(
        output,
        counts.records,
        reader::block_count(deck),
        counts.lost,
    );
}

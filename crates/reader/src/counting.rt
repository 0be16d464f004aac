// How many records a deck holds, how many blocks, and how many of these are lost.
ghost use Rattle.std.specs.Prelude.{◌≡◌, length};
ghost use Rattle.reader.specs.Runs.{blocks};
ghost use Rattle.reader.specs.Counting.{tally_of};

use crate::finding::{Found, find};

#[derive(Clone, Copy)]
pub struct Counts {
    pub records: usize,
    pub lost: usize,
}

// A short block at the end counts.
pub fn block_count(deck: &[u8]) -> usize
    ensures { result ≡ length (blocks deck.now) }
{
    (deck.len() + 511) / 512
}

pub fn tally(deck: &[u8]) -> Counts
    ensures { result ≡ tally_of deck.now }
{
    let mut position: usize = 0;
    let mut records: usize = 0;
    let mut lost: usize = 0;
    loop {
        let found = find(deck, position);
        match found {
            Found::Record(_, n) => {
                records += 1;
                position += blocks::parts_of(n);
            }
            Found::Lost(_) => {
                lost += 1;
                position += 1;
            }
            Found::End => {
                return Counts {
                    records: records,
                    lost: lost,
                };
            }
        }
    }
}

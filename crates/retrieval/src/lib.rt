// One side of the records of a number, out of a deck, as the DER that was written.
#![tactic(auto)]

ghost use Rattle.std.specs.Prelude.{◌≡◌, ◌+◌, ◌≤◌, length, take, drop};
ghost use Rattle.blocks.specs.Record.{parts, certificate_length};
ghost use Rattle.reader.specs.Runs.{from, record_from};
ghost use Rattle.reader.specs.Events.{events_from};
ghost use Rattle.reader.specs.Finding.{found_at};
ghost use Rattle.reader.specs.declared.finding.Found.TheVariants as Found;
ghost use Rattle.retrieval.specs.Fetching.{written_side, numbered, FetchedFirst};
ghost use Rattle.retrieval.specs.Workings.Fetching.{PutOctets};

use lint::Side;
use reader::Found;

// A side that was put at the front of a buffer.
#[derive(Clone, Copy)]
pub struct Fetched {
    pub length: usize,
    // the position of the block behind the record
    pub next: usize,
}

// The buffer has fewer octets than the side.
#[derive(Clone, Copy)]
pub struct NoRoom;

// "N from 3 to 16,387" (document 01, "The deck").
const LONGEST: usize = 16387;

// Puts the n octets of these from `at` on at the front of `out`.
fn put_octets(
    octets: &[u8],
    at: usize,
    n: usize,
    next: usize,
    out: &mut [u8],
) -> Result<Fetched, NoRoom>
    requires { at + n ≤ length octets.now }
    ensures { PutOctets (take n (drop at octets.now)) next out.old result out.new }
{
    if out.len() < n {
        return Err(NoRoom);
    }
    octets::copy(octets, at, n, out, 0);
    Ok(Fetched {
        length: n,
        next: next,
    })
}

// The same of a side of the record that the first n of these octets are, of which c are the certificate.
fn put_side(
    octets: &[u8],
    n: usize,
    c: usize,
    side: Side,
    next: usize,
    out: &mut [u8],
) -> Result<Fetched, NoRoom>
    requires { (c ≡ certificate_length (take n octets.now)) × (3 + c ≤ n) × (n ≤ length octets.now) }
    ensures { PutOctets (written_side side (take n octets.now)) next out.old result out.new }
{
    match side {
        Side::Certificate => put_octets(octets, 3, c, next, out),
        Side::Issuer => put_octets(octets, 3 + c, n - (3 + c), next, out),
    }
}

// The same of the record of that number and length that starts at the block.
fn fetch_at(
    deck: &[u8],
    at: usize,
    number: usize,
    n: usize,
    side: Side,
    out: &mut [u8],
) -> Result<Fetched, NoRoom>
    requires { found_at deck.now at ≡ Found.Record number n }
    ensures { PutOctets (written_side side (record_from (from deck.now at))) (at + parts n) out.old result out.new }
{
    let mut desk = [0u8; LONGEST];
    // the record stands there, and the longest one fits
    let layout = reader::take_record(deck, at, &mut desk).unwrap();
    let next = at + blocks::parts_of(n);
    put_side(&desk, n, layout.certificate, side, next, out)
}

// The same of the next record of that number from the block at `position` on, or nothing where no such record is left.
pub fn fetch(
    deck: &[u8],
    position: usize,
    number: usize,
    side: Side,
    out: &mut [u8],
) -> Option<Result<Fetched, NoRoom>>
    ensures { FetchedFirst (numbered number (events_from deck.now position)) side out.old result out.new }
{
    let mut at = position;
    loop {
        let found = reader::find(deck, at);
        match found {
            Found::Record(other, n) => {
                if other == number {
                    return Some(fetch_at(deck, at, other, n, side, out));
                }
                at += blocks::parts_of(n);
            }
            Found::Lost(_) => at += 1,
            Found::End => return None,
        }
    }
}

// "Octets 0–3 record number, 4–5 record length N, 6 part, 7 zero" (document 01, "The deck"). Past a block's end every
// octet is 0.
ghost use Rattle.std.specs.Prelude.{◌≡◌, ◌<◌, ◌^◌, drop};
ghost use Rattle.blocks.specs.Block.{record_number, record_length, part_of, is_clear, data_of};
ghost use Rattle.blocks.specs.Record.{is_record_length, are_zero, parts};

pub fn record_number(block: &[u8]) -> usize
    ensures { (result ≡ record_number block.now) × (result < 2 ^ 32) }
{
    65536 * octets::pair(block, 0) + octets::pair(block, 2)
}

pub fn record_length(block: &[u8]) -> usize
    ensures { (result ≡ record_length block.now) × (result < 65536) }
{
    octets::pair(block, 4)
}

pub fn part_of(block: &[u8]) -> usize
    ensures { (result ≡ part_of block.now) × (result < 256) }
{
    usize::from(octets::octet(block, 6))
}

pub fn is_clear(block: &[u8]) -> bool
    ensures { result ≡ is_clear block.now }
{
    octets::octet(block, 7) == 0
}

// "N from 3 to 16,387".
pub fn is_record_length(n: usize) -> bool
    ensures { result ≡ is_record_length n }
{
    (3 <= n) & (n <= 16387)
}

// Whether a block's data is zero after its first `used` octets.
pub fn is_filled(block: &[u8], used: usize) -> bool
    ensures { result ≡ are_zero (drop used (data_of block.now)) }
{
    octets::octets_from(block, used.saturating_add(8), octets::minus(502, used)).all(|b| b == 0)
}

// How many parts a record of n octets has.
pub fn parts_of(n: usize) -> usize
    ensures { result ≡ parts n }
{
    if n % 502 == 0 {
        return n / 502;
    }
    n / 502 + 1
}

// The data of 33 parts, as many as the longest record has: a record is laid out or gathered in so many octets.
pub const DESK: usize = 16566;

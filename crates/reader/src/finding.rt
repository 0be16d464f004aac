// What stands at a block (document 01, "The deck"): a record that starts there, a lost block, or nothing past the end.
ghost use Rattle.std.specs.Prelude.{◌≡◌, ◌*◌, ◌≤◌, ◌<◌, length};
ghost use Rattle.reader.specs.Runs.{block_at, from, is_part, are_parts, starts};
ghost use Rattle.reader.specs.Finding.{found_at};

// Why a block is lost.
#[derive(Clone, Copy)]
pub enum Loss {
    // under 512 octets, at the end
    Short,
    // its check differs
    Unsound,
    Stray,
}

#[derive(Clone, Copy)]
pub enum Found {
    // the record's number and its length
    Record(usize, usize),
    Lost(Loss),
    End,
}

// The block at a position, short at the deck's end and empty past it.
fn block_at(deck: &[u8], position: usize) -> &[u8]
    ensures { result.now ≡ block_at deck.now position }
{
    if deck.len() / 512 < position {
        return &deck[..0];
    }
    let at = 512 * position;
    if deck.len() - at < 512 {
        return &deck[at..];
    }
    let end = at + 512;
    &deck[at..end]
}

// Whether the block is sound, and part j of the record of that number and length.
fn is_part(number: usize, n: usize, j: usize, block: &[u8]) -> bool
    ensures { result ≡ is_part number n j block.now }
{
    if blocks::is_sound_block(block) {
        return (blocks::record_number(block) == number)
            & (blocks::record_length(block) == n)
            & (blocks::part_of(block) == j)
            & blocks::is_clear(block);
    }
    false
}

// Whether the k blocks from `position` on are the parts 0 to k - 1 of that record.
fn are_parts(deck: &[u8], position: usize, number: usize, n: usize, k: usize) -> bool
    requires { 512 * position ≤ length deck.now }
    ensures { result ≡ are_parts number n 0 k (from deck.now position) }
{
    for j in 0..k {
        let block = block_at(deck, position + j);
        if !is_part(number, n, j, block) {
            return false;
        }
    }
    true
}

// Whether a record starts at this block. A block is a later part of at most one run that is tried, so a damaged deck
// has each of its blocks looked at three times at most.
fn is_start(deck: &[u8], position: usize) -> bool
    requires { 512 * position < length deck.now }
    ensures { result ≡ starts (from deck.now position) }
{
    let block = block_at(deck, position);
    let number = blocks::record_number(block);
    let n = blocks::record_length(block);
    if (number == 0) | !blocks::is_record_length(n) {
        return false;
    }
    let k = blocks::parts_of(n);
    if !are_parts(deck, position, number, n, k) {
        return false;
    }
    let last = block_at(deck, position + (k - 1));
    blocks::is_filled(last, n - 502 * (k - 1)) & (octets::pair(block, 9) <= n - 3)
}

pub fn find(deck: &[u8], position: usize) -> Found
    ensures { result ≡ found_at deck.now position }
{
    let block = block_at(deck, position);
    if block.len() == 0 {
        return Found::End;
    }
    if is_start(deck, position) {
        return Found::Record(blocks::record_number(block), blocks::record_length(block));
    }
    if block.len() < 512 {
        return Found::Lost(Loss::Short);
    }
    if blocks::is_sound_block(block) {
        return Found::Lost(Loss::Stray);
    }
    Found::Lost(Loss::Unsound)
}

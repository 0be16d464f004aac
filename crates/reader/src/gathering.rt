// A record's data lies in several blocks. It is gathered at the front of a desk, in one piece.
ghost use Rattle.std.specs.Prelude.{◌≡◌, ◌++◌, ◌+◌, ◌*◌, ◌≤◌, length, drop};
ghost use Rattle.reader.specs.Runs.{from, data_from};
ghost use Rattle.reader.specs.Workings.Desk.{desk_with};

fn gather_inside(deck: &[u8], position: usize, k: usize, desk: &mut [u8])
    requires { (512 * (position + k) ≤ length deck.now) × (k * 502 ≤ length desk.old) }
    ensures { desk.new ≡ data_from k (from deck.now position) ++ drop (k * 502) desk.old }
{
    for j in 0..k {
        octets::copy(deck, 512 * (position + j) + 8, 502, desk, 502 * j);
    }
}

// Copies the data of the k blocks from `position` on to the front of the desk; nothing if the deck has fewer whole
// blocks there, or the desk no room for it.
pub fn gather(deck: &[u8], position: usize, k: usize, desk: &mut [u8])
    ensures { desk.new ≡ desk_with deck.now position k desk.old }
{
    if octets::within(position, k, deck.len() / 512) & (k <= desk.len() / 502) {
        gather_inside(deck, position, k, desk);
    }
}

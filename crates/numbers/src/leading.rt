// Where a number starts: zeros in front of it add nothing.
ghost use Rattle.std.specs.Prelude.{◌≡◌};
ghost use Rattle.numbers.specs.Workings.Leading.{lead_of};

// The place of the first octet that is not 0; end, or body where that is later, if there is none.
pub fn lead(s: &[u8], body: usize, end: usize) -> usize
    ensures { result ≡ lead_of s.now body end }
{
    for i in body..end {
        if octets::octet(s, i) != 0 {
            return i;
        }
    }
    body.max(end)
}

// An element's header: its identifier octet and its length (X.690, 8.1.2, 8.1.3 and 10.1).
ghost use Rattle.std.specs.Prelude.{◌≡◌, ◌-◌, min};
ghost use Rattle.octets.specs.Numbers.{largest};
ghost use Rattle.der.specs.Header.{tag_ok, broken_head, head_if, long_ok, length_by, head_of};

// An element: its start, its identifier octet, where its contents start and end. One whose header is not sound
// has no contents and takes all that is left of its container.
#[derive(Clone, Copy)]
pub struct Head {
    pub at: usize,
    pub tag: u8,
    pub body: usize,
    pub end: usize,
    pub sound: bool,
}

fn tag_ok(tag: u8) -> bool
    ensures { result ≡ tag_ok tag }
{
    !(tag % 32 == 31) & (!(tag == 0) & !(tag == 32))
}

pub fn broken_head(at: usize, end: usize) -> Head
    ensures { result ≡ broken_head at end }
{
    Head {
        at: at,
        tag: 0,
        body: end,
        end: end,
        sound: false,
    }
}

// The head of an element whose header takes `skip` octets and whose contents take `len`, where that stays before
// end and its tag and length are good.
#[tactic(auto, using(std::proofs::lemmas::Bool::Decides::nat_tests))]
fn head_if(good: bool, at: usize, end: usize, tag: u8, skip: usize, len: usize) -> Head
    ensures { result ≡ head_if good at end tag skip len }
{
    let inside = octets::fits(at, skip, len, end);
    if good & (tag_ok(tag) & inside) {
        return Head {
            at: at,
            tag: tag,
            body: at + skip,
            end: at + (skip + len),
            sound: true,
        };
    }
    broken_head(at, end)
}

// Whether a length in the long form is definite, not reserved, and in the fewest octets.
fn long_ok(first: u8, high: u8, len: usize) -> bool
    ensures { result ≡ long_ok first high len }
{
    (!(first == 128) & !(first == 255)) & (!(high == 0) & (128 <= len))
}

// How many octets of length follow the first.
fn more_octets(first: u8) -> u8
    ensures { result ≡ first - 128 }
{
    if first < 128 { 0 } else { first - 128 }
}

// The length that is written after the identifier octet at `at`, whose first octet is `first`. Within a side a length
// takes one octet more or two, so these are read apart from the loop.
fn length_at(s: &[u8], at: usize, first: u8) -> usize
    ensures { result ≡ min (length_by s.now at first) largest }
{
    if first < 128 {
        return octets::wide(first);
    }
    if first == 129 {
        return octets::wide(octets::octet_past(s, at, 2));
    }
    if first == 130 {
        let high = octets::wide(octets::octet_past(s, at, 2));
        return 256 * high + octets::wide(octets::octet_past(s, at, 3));
    }
    octets::number(s, at, 2, more_octets(first))
}

// The element at place `at` in a container that ends at `end`, whatever the form of its length.
pub fn head_any(s: &[u8], at: usize, end: usize) -> Head
    ensures { result ≡ head_of s.now at end }
{
    let first = octets::octet_past(s, at, 1);
    let high = octets::octet_past(s, at, 2);
    let len = length_at(s, at, first);
    let good = (end <= s.len()) & ((first < 128) | long_ok(first, high, len));
    let skip = 2 + octets::wide(more_octets(first));
    head_if(good, at, end, octets::octet(s, at), skip, len)
}

// The same, small enough to be inlined: the short form is read here, and the long one, which is rare, by a call.
#[tactic(auto, using(std::proofs::lemmas::Bool::Decides::nat_tests))]
pub fn head_at(s: &[u8], at: usize, end: usize) -> Head
    ensures { result ≡ head_of s.now at end }
{
    if end <= s.len() {
        if octets::within(at, 2, end) {
            let tag = s[at];
            let first = s[at + 1];
            if first < 128 {
                return head_if(true, at, end, tag, 2, octets::wide(first));
            }
            let any = head_any(s, at, end);
            return Head {
                at: any.at,
                tag: any.tag,
                body: any.body,
                end: any.end,
                sound: any.sound,
            };
        }
        return broken_head(at, end);
    }
    broken_head(at, end)
}

// A text that grows in a lent buffer: words, and numbers in decimal.
ghost use Rattle.std.specs.Prelude.{◌≡◌, [], ◌∷◌, ◌++◌, ◌+◌, ◌<◌, leb, length, take, drop};
ghost use Rattle.texts.specs.Texts.{decimal as Decimal};
ghost use Rattle.texts.specs.Putting.{Grown};

// The octets that are put so far, at the front of the buffer. Those that the buffer has no space for are not put.
#[derive(Drop)]
pub struct Text<'a> {
    space: &'a mut [u8],
    // the place of the buffer that the next octet goes to: a caller may set it to any
    pub len: usize,
}

impl<'a> Text<'a> {
    pub fn new(space: &'a mut [u8]) -> Text<'a>
        ensures { result ≡ record { space = space.entry; len = 0 } }
    {
        Text { space, len: 0 }
    }

    // Whether the buffer has space for so many octets more.
    pub fn has_space(&self, more: usize) -> bool
        ensures { result ≡ leb (self.now.len + more) (length self.now.space.now) }
    {
        octets::within(self.len, more, self.space.len())
    }

    pub fn octets(&self) -> &[u8]
        ensures { result.now ≡ take self.now.len self.now.space.now }
    {
        &self.space[..self.len.min(self.space.len())]
    }

    // One octet.
    fn put(&mut self, b: u8)
        ensures { Grown (b ∷ []) self.old self.new }
    {
        if self.len < self.space.len() {
            self.space[self.len] = b;
            self.len += 1;
        }
    }

    pub fn word(&mut self, text: &[u8])
        ensures { Grown text.now self.old self.new }
    {
        for i in 0..text.len() {
            self.put(text[i]);
        }
    }

    pub fn decimal(&mut self, x: usize)
        ensures { Grown (Decimal x) self.old self.new }
    {
        let mut space = [0u8; 20];
        let at = digits(x, &mut space);
        self.word(&space[at..]);
    }

    // A word, and a number behind it.
    pub fn field(&mut self, text: &[u8], x: usize)
        ensures { Grown (text.now ++ Decimal x) self.old self.new }
    {
        self.word(text);
        self.decimal(x);
    }
}

// The digits of a number, written from the last one on to the end of `space`; the answer is where they start.
fn digits(x: usize, space: &mut [u8]) -> usize
    requires { length space.old ≡ 20 }
    ensures { (drop result space.new ≡ Decimal x) × (result < 20) }
{
    let mut rest = x;
    let mut i: usize = 20;
    while rest >= 10 {
        i -= 1;
        space[i] = (48 + rest % 10) as u8;
        rest /= 10;
    }
    i -= 1;
    space[i] = (48 + rest) as u8;
    i
}

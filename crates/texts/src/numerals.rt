// What decimal digits say.
ghost use Rattle.std.specs.Prelude.{◌≡◌};
ghost use Rattle.texts.specs.Numerals.{decimal_of};
ghost use Rattle.texts.specs.Workings.Numerals.{appended};

// The largest record number.
const LARGEST: u64 = 4294967295;

// A number with a digit written on, if c is one and the number fits in four octets.
fn append(number: u32, c: u8) -> Option<u32>
    ensures { result ≡ appended number c }
{
    if !octets::is_digit(c) {
        return None;
    }
    let next = 10 * (number as u64) + ((c - b'0') as u64);
    if next > LARGEST {
        return None;
    }
    Some(next as u32)
}

// The number that the digits of a text say, if it has at least one, nothing besides, and the number fits in four octets.
// (`str::parse` would take a sign before the digits too.)
pub fn decimal_of(text: &[u8]) -> Option<u32>
    ensures { result ≡ decimal_of text.now }
{
    if text.is_empty() {
        return None;
    }
    let mut number = 0;
    for c in text {
        number = append(number, *c)?;
    }
    Some(number)
}

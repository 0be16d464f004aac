// Rule 122: the common name of a subordinate authority, words with a number behind them.
ghost use Rattle.std.specs.Prelude.{◌≡◌};
ghost use Rattle.octets.specs.Octets.{octets_from};
ghost use Rattle.subjects.specs.Authorities.{is_number_from_one, is_numbered, says_authority, is_other_authority};

use crate::types::{arc_of, attribute_value};
use der::Head;

// Whether the n octets from `at` on are a decimal number from 1 without leading zeros. (It may have any number of digits.)
fn is_number_from_one(s: &[u8], at: usize, n: usize) -> bool
    ensures { result ≡ is_number_from_one (octets_from s.now at n) }
{
    let first = octets::octet(s, at);
    (0 < n) & (!(first == b'0') & octets::octets_from(s, at, n).all(|b| octets::is_digit(b)))
}

// Whether the n octets from `body` on are these words with such a number behind them.
fn is_numbered(s: &[u8], body: usize, n: usize, words: &[u8]) -> bool
    ensures { result ≡ is_numbered words.now (octets_from s.now body n) }
{
    let size = words.len();
    let begins = octets::equals(s, body, size, words);
    begins & is_number_from_one(s, body.saturating_add(size), octets::minus(n, size))
}

// Whether a value is a PrintableString that names an authority.
fn says_authority(s: &[u8], value: Head) -> bool
    ensures { result ≡ says_authority s.now value }
{
    let body = value.body;
    let n = octets::minus(value.end, body);
    let named = is_numbered(s, body, n, b"US Federal TLS CA ")
        | is_numbered(s, body, n, b"US Federal Test TLS CA ");
    (value.tag == 19) & named
}

// Rule 122.
pub fn is_other_authority(s: &[u8], h: Head) -> bool
    ensures { result ≡ is_other_authority s.now h }
{
    if arc_of(s, h) == 3 {
        return !says_authority(s, attribute_value(s, h));
    }
    false
}

// The octets of a stretch, one after the other.
ghost use Rattle.std.specs.Prelude.{◌≡◌};
ghost use Rattle.std.specs.Iterator.{YieldsFirst, item_count};
ghost use Rattle.octets.specs.Octets.{octets_from};
ghost use Rattle.octets.specs.Stretches.{octets_left};

use crate::reading::octet_past;

// So many octets from a place on, and how many of them were passed.
#[derive(Clone, Copy)]
pub struct Stretch<'a> {
    octets: &'a [u8],
    at: usize,
    len: usize,
    passed: usize,
}

impl Iterator for Stretch<'_> {
    type Item = u8;

    ghost next_gives = { YieldsFirst octets_left };

    ghost remaining = { item_count octets_left };

    fn next(&mut self) -> Option<u8> {
        if self.passed < self.len {
            let octet = octet_past(self.octets, self.at, self.passed);
            self.passed += 1;
            return Some(octet);
        }
        None
    }
}

// The n octets from `at` on.
pub fn octets_from(s: &[u8], at: usize, n: usize) -> Stretch<'_>
    ensures whole { result ≡ record { octets = s.entry; at = at; len = n; passed = 0 } }
    ensures left { octets_left result ≡ octets_from s.now at n }
{
    Stretch {
        octets: s,
        at: at,
        len: n,
        passed: 0,
    }
}

// The sign of an INTEGER (X.690, 8.3.3): where the first bit is set, the number is negative.
ghost use Rattle.std.specs.Prelude.{◌≡◌, ◌-◌};
ghost use Rattle.octets.specs.Octets.{octets_from};
ghost use Rattle.der.specs.Integers.{integer_of};
ghost use Rattle.numbers.specs.Numbers.{is_positive};

use crate::leading::lead;

// Whether the number is above zero: 80 hex is not.
pub fn positive(s: &[u8], body: usize, end: usize) -> bool
    ensures { result ≡ is_positive (integer_of (octets_from s.now body (end - body))) }
{
    (lead(s, body, end) < end) & (octets::octet(s, body) < 128)
}

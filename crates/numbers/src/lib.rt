// The numbers that the contents of INTEGERs stand for, tested without being held whole. Contents are the octets of a
// list from `body` to `end`.
#![tactic(auto)]

mod counting;
mod exponent;
mod leading;
mod sign;
mod size;

pub use counting::{at_least, small};
pub use exponent::{exponent_ok, odd};
pub use sign::positive;
pub use size::{below, has_bits, long_modulus, modulus_ok};

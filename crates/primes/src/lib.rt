// The primes below 752, and the test that none of them divides a modulus.
#![tactic(auto)]

mod dividing;
mod table;
mod words;

pub use dividing::divisible_by_none;

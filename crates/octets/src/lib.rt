// Octets by their place. Every function answers for every argument: past the end of the list an octet is 0.
#![tactic(auto)]

mod arrays;
mod bits;
mod characters;
mod comparing;
mod copying;
mod places;
mod reading;
mod stretches;

pub use arrays::zeros;
pub use bits::bit;
pub use characters::is_digit;
pub use comparing::{equals, lower_case, same, same_ignoring_case, same_stretch};
pub use copying::copy;
pub use places::Place;
pub use reading::{fits, minus, number, octet, octet_past, pair, wide, within};
pub use stretches::{Stretch, octets_from};

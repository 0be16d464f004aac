// What a key may be used for: the bits of key usage, and the purposes of extended key usage.
#![tactic(auto)]

mod purposes;
mod usage;

pub use purposes::purpose_arc;
pub use usage::{other_usage, signs, signs_alone, signs_for_authority};

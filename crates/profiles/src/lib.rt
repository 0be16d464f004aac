// The profiles, and what sets them apart: which rules they judge, and small tables of what they ask, so that a rule is
// written once for all of them. And the level of each rule.
#![tactic(auto)]

mod extensions;
mod fields;
mod judged;
mod levels;
mod values;

pub use extensions::{
    Criticality, Mark, criticality_of, is_miscritical, is_out_of_place, is_unwanted, mark_of,
};
pub use fields::{
    Limit, Profile, allows_attribute, limit_of, profile_of, takes_curves, takes_utf8,
};
pub use judged::holds;
pub use levels::{Level, level_number, level_of};
pub use values::{allows_purpose, usage_with_curve, usage_with_rsa, wanted_purpose, wants_forum};

// The attributes of a subject name (AttributeTypeAndValue), and the SETs that hold them. What is asked here is asked of
// one of them: rules 115, 117, 119 and 122 of an attribute, 121 of a SET.
#![tactic(auto)]

mod authorities;
mod sets;
mod types;
mod values;

pub use authorities::is_other_authority;
pub use sets::is_crowded;
pub use types::{arc_of, attribute_value};
pub use values::{is_other_country, is_other_organization, is_other_state};

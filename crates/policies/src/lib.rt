// Certificate policies and their qualifiers.
#![tactic(auto)]

mod policies;

pub use policies::{federal_arc, forum_arc, is_federal, other_qualifier, qualifiers_of};

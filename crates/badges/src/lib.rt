// What names a card: the UUID and the FASC-N among its names.
#![tactic(auto)]

mod cards;
mod uuids;

pub use cards::is_fasc_n;
pub use uuids::is_uuid_uri;

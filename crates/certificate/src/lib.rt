// What an accepted certificate says: where its fields are, and what the rules ask of more than one of them.
#![tactic(auto)]

mod extensions;
mod fields;
mod issuer;
mod key;
mod slots;

pub use extensions::{Extension, extension_of, is_period, same_identifier, seen_before, slot_of};
pub use fields::{Certificate, read};
pub use issuer::{Issuer, read_issuer};
pub use key::{Key, KeyKind, key_of};
pub use slots::{SLOTS, Slot, SlotTable, read_slots};

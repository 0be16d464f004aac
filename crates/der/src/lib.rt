// Sound DER: an element's header, its members, what it says, the contents of the universal types, the order of a
// SET's members, and the walk over elements within elements that refusals 4 and 5 rest on.
#![tactic(auto)]

mod arcs;
mod children;
mod comparing;
mod contents;
mod header;
mod members;
mod order;
mod walk;

pub use arcs::arc_below;
pub use children::{Children, children_of, members_in};
pub use comparing::{contents_are, first_is, octets_are, same_contents, same_element};
pub use contents::{element_ok, holds_elements, is_constructed, primitive_ok};
pub use header::{Head, head_any, head_at};
pub use members::{after, first_in, inside_tag, is_none, missing, past, second_in};
pub use order::{ascending, octets_le};
pub use walk::{Fault, check_der, check_stretch};

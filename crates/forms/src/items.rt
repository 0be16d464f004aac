// The items that a rule looks at, one by one.
use crate::nests::Nest;
use der::Head;

#[derive(Clone, Copy)]
pub enum Items {
    // the members of a list
    Members(Head),
    // the items that its members hold
    Within(Nest, Head),
}

// RFC 5280 as a grammar: whether octets are a certificate, and if not at which place (refusal 6), and whether an
// extension's value is of its type (rules 340+s). One interpreter serves both; the types are rows of a table.
#![tactic(auto)]

mod fitting;
mod leaf;
mod table;

pub use fitting::{Misfit, check_certificate, value_ok};

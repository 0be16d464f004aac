// dNSNames, and whether they are host names. An element is given by its head, a list by where it starts and ends.
#![tactic(auto)]

mod hosts;
mod named;

pub use hosts::{has_underscore, is_host_name, no_host};
pub use named::{is_dns_name, some_same};

// The linter: a certificate, its issuer's and a profile in, a refusal or the findings out.
#![tactic(auto)]

mod judging;
mod linting;
mod reasons;

pub use judging::{admit, examine};
pub use linting::{answer_values, lint};
pub use reasons::{Inadmissible, Refusal, Side, inadmissible_values, refusal_values};

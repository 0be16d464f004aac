// No code: this crate states and proves that every entry of a report is at an element of the certificate.
#![tactic(auto)]

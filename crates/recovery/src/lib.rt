// What the writer writes the reader reads back, and from a deck some of whose blocks were spoiled it recovers the rest
// (document 00, demands 2 and 3). This crate has statements and proofs alone.
#![tactic(auto)]

// What the three demands of document 00 ask, each in one statement about the contracts of the code. There is no code
// here: specs/ has the statements, proofs/ shows them.
#![tactic(auto)]

// No code: this crate says on arcs what definitions say on the octets of OBJECT IDENTIFIERs.
#![tactic(auto)]

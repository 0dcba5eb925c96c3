// The laws that every crate cites. There is no code here: see specs/ and proofs/.
#![tactic(auto)]

// The demands of document 01, stated in specs/ and proved in proofs/. This crate has no code.
#![tactic(auto)]

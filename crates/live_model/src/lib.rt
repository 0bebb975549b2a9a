//! What a run of `live` owes to its script: the definitions that tie a script and what is printed to the closed journal
//! and to the wires, and their laws.
#![tactic(auto)]

pub mod laws;

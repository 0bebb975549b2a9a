//! What is printed of a run of `live` is read back from its text, and audited yes.
#![tactic(auto)]

pub mod laws;
pub mod text_laws;

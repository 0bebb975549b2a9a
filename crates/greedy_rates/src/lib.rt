//! The grants of one slot: which flows are served, in the order of a line of coflows, and for how many slots they can
//! stay so.
#![tactic(auto)]

mod owed_pass;
mod owing;
mod pass;
mod scratch;

pub use owing::Owing;
pub use pass::Granted;
pub use scratch::{Scratch, grants, grants_owed};

//! Lists of runs of equal slots, and walks over them.
#![tactic(auto)]

mod changes;
mod mark;
mod runs;
mod turnover;
mod walk;

pub use runs::Runs;
pub use walk::Walk;

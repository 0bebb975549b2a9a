//! Online runs: coflows join as they arrive, are ordered anew at each epoch and served, until none owes anything. What
//! such a run is, what is printed of it, and what is known while it is under way.
#![tactic(auto)]

mod ending;
pub mod laws;
mod orders;
mod progress;

pub use ending::told;
pub use orders::{bound_of, epoch_of};
pub use progress::{Progress, no_progress};

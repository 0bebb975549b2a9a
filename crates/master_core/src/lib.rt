//! The master of one thread: it answers commands one by one, and what it answers is told by its journal alone.
#![tactic(auto)]

mod ledger;
mod line;
mod master;
mod orders;
mod roster;
mod runs;
mod search;
mod standing;

pub use journal::{Command, Entry, Reply};
pub use master::Master;

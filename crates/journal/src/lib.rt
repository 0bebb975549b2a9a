//! Journals of the one-thread master: commands, replies and entries, the state that a journal gives, the answers that
//! it asks for, and the laws that hold of every legal journal.
#![tactic(auto)]

mod command;
pub mod drive_laws;
pub mod laws;
mod opening;
pub mod run_laws;
mod tally;

pub use command::{Command, Entry, Reply};
pub use opening::Opening;
pub use tally::{Credit, CreditedRun, RunTally};

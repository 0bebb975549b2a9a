//! The program that tells the numbers of a schedule: from the words of a command line and the bytes of a trace and a
//! report to the bytes of a text.
#![tactic(auto)]

mod checking;
mod command;
mod files;
pub mod laws;
mod messages;
mod numbers;
mod parser;
mod status;
mod value;
mod words;

pub use command::sincronia_stats;
pub use status::StatsStatus;

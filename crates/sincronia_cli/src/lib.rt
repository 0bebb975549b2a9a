//! The program's commands: from the words of a command line and the bytes of files to the bytes that are written.
#![tactic(auto)]

mod carrying;
mod command;
pub mod laws;

pub use command::sincronia;
pub use live_rounds::{Gate, OpenGate, PullDone, RoundStop, round};

//! Rounds of a script: its clients carry out their lines in sessions of a hall, beside each other, each its own lines
//! in their order.
#![tactic(auto)]

mod answer;
mod client;
mod gate;
pub mod laws;
mod line;
mod part;
mod playing;
mod rounds;

pub use answer::{PullDone, RoundStop};
pub use gate::{Gate, OpenGate};
pub use rounds::round;

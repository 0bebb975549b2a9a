//! A runner: it opens runs in a hall as the hall's driver, grants each run at the ports, lets agents on threads of
//! their own draw and send what is granted, settles and notes what the wires took, and closes the run.
//!
//! A `Runner` starts its agents in each run. A `Crew` makes the same runs, with helpers that live through all of them.
#![tactic(auto)]

mod answer;
mod camp;
mod crew;
mod posting;
mod runner;
mod settling;

pub use answer::{Ran, RunnerBack};
pub use camp::Camp;
pub use crew::{Crew, Site};
pub use runner::Runner;

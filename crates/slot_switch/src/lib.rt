//! The schedule that serves an order of coflows on the big switch.
#![tactic(auto)]

mod simulation;

pub use simulation::simulate;

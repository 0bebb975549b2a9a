//! What coflows owe under arrivals, and what is done next: who joins or leaves, when an order is published, and for how
//! long units may be served.
#![tactic(auto)]

mod action;
mod epochs;
pub mod laws;
mod scan;
mod tallies;

pub use action::Action;
pub use epochs::Epochs;
pub use tallies::{spend, units_of_coflows, units_of_flows};

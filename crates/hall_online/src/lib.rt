//! An online run served by a hall: one driver does what the course of the run says, and runs are sent on wires.
#![tactic(auto)]

mod acting;
mod answer;
mod beginning;
mod camping;
mod online;
mod running;
mod serving;
mod telling;
mod turns;

pub use answer::OnlineFault;
pub use online::serve_online;
pub use telling::served_online;

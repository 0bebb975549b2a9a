//! Schedules on the fabric: whether a schedule is valid and patient, and what every valid schedule must take.
#![tactic(auto)]

mod clashes;
mod counts;
mod ends;
mod fault;
pub mod laws;
mod patience;
mod ports;
mod schedule;
mod strangers;
mod validity;

pub use ends::{completions, completions_of_runs, cost_of};
pub use fault::ScheduleFault;
pub use patience::is_patient;
pub use schedule::Schedule;
pub use validity::{find_fault, find_fault_of_runs};

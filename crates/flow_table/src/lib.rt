//! The table of flows that a trace gives, where a unit has so many megabytes.
#![tactic(auto)]

mod below;
mod fault;
mod flows;
pub mod laws;
mod spots;
mod starts;
mod stop;
mod table;
mod targets;
mod units;

pub use fault::TableFault;
pub use table::Table;

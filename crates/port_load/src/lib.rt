//! The loads of coflows on the ports of the fabric: a table that is filled from flows, and from which coflows are taken
//! away.
#![tactic(auto)]

mod cells;
mod filling;
mod greatest;
pub mod laws;
mod loads;
mod marks;

pub use greatest::bottleneck;
pub use loads::Loads;

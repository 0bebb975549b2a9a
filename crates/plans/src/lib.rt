//! Reports of plans, and of orders that are given: from a table of flows and weights to a report, its text, and the
//! laws that hold of every such report.
#![tactic(auto)]

pub mod laws;
mod order;
mod places;
mod planning;
mod serving;

pub use planning::{bound_of, report_of};
pub use serving::report_of_order;

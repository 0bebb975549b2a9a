//! Orders of coflows, read from a text. The order is the one that the text says, or the first fault in reading order is
//! told.
#![tactic(auto)]

mod coflows;
mod fault;
pub mod laws;
mod line;
mod lines;
mod orders;

pub use fault::OrderFault;
pub use orders::read_order;

//! Reading of a coflow trace, of which the answer is exactly known: a text gives the trace of its fields, or the first
//! fault in reading order is told.
#![tactic(auto)]

mod back;
mod coflows;
mod fault;
mod front;
mod header;
pub mod laws;
mod range;
mod trace;

pub use fault::TraceFault;
pub use trace::read_trace;

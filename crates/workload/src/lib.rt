//! Workloads that are made: the scripts of clients, read by their grammar, and traces with weights that are drawn from
//! a seed. A seed stands for exactly one trace, byte by byte.
#![tactic(auto)]

mod coflow;
mod coflows;
mod draft;
mod drawing;
mod fault;
mod generator;
pub mod laws;
mod line;
mod numbers;
mod script;
mod word;
mod writing;

pub use coflow::{MadeCoflow, MadeReducer};
pub use fault::ScriptFault;
pub use generator::{Made0, made};
pub use script::{Asked, Round, Script, ScriptLine, read_script};

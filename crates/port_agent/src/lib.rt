//! An agent of the ports: it draws grants, sends them on the wires of their ports, and reports what the wires accepted.
#![tactic(auto)]

mod agent;
mod agents;

pub use agent::{Agent, Served};
pub use agents::serve_run;

//! A crew: a driver, and helpers that live through many runs, each on a thread of its own. A run costs what it grants:
//! the granted ports are cut into stretches of even length, and each stretch goes with its wires to one agent, which is
//! new in each run. The driver moves one agent itself, and each helper one.
#![tactic(auto)]

mod attending;
mod gathering;
mod helping;
mod part;
mod serving;
mod wires;

pub use gathering::{Gathered, append, gather, retire};
pub use helping::help_all;
pub use part::{Outlet, Part};
pub use serving::{Station, end_all, help, serve_crew};

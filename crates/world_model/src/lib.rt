//! The world of interleavings: every step that callers, agents and the driver of runs may take, in any order, and the
//! law that holds after every list of steps.
#![tactic(auto)]

mod event;
pub mod laws;
mod port;
mod world;

pub use event::{Event, Happened, SentRun};
pub use port::{PortState, Stage};
pub use world::World;

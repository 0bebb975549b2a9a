//! Weights of coflows, read from a text. The weights are those that the text says, or the first fault in reading order
//! is told.
#![tactic(auto)]

mod fault;
pub mod laws;
mod line;
mod lines;
mod weights;

pub use fault::WeightsFault;
pub use weights::read_weights;

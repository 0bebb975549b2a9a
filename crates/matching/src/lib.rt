//! Grants that are kept from run to run: where a flow ends, they are repaired at its ports alone, or row by row where
//! many flows end at once.
#![tactic(auto)]

mod anew;
mod board;
mod heads;
pub mod laws;
mod listing;
mod matching;
mod pass;
mod ranks;
mod rows;
mod stack;
mod tables;
mod waiting;

pub use matching::Matching;

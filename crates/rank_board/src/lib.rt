//! Ranks that any number of threads read without waiting, while one publisher replaces them all at once. A read tells
//! the version that its rank was published with.
#![tactic(auto)]

mod board;
mod plays;
mod pulls;
mod view;

pub use board::{Publisher, Pulled, RankBoard, RankSeat};
pub use pulls::Pull;

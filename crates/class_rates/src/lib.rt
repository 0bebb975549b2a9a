//! Orders of coflows folded into classes, for switches that have few priorities, and what a schedule that keeps classes
//! costs at most.
#![tactic(auto)]

mod caps;
mod classes;
mod fold;
mod folding;
pub mod laws;

pub use caps::cap;
pub use classes::{Classes, MAX_CLASSES};
pub use fold::Fold;
pub use folding::fold_order;

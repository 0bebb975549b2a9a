//! The order of the coflows by bottleneck, select, scale, iterate, in exact arithmetic.
#![tactic(auto)]

mod bssi;
mod greatest;
mod step;

pub use bssi::{Bssi, give_budgets};
pub use step::{choose, pay};

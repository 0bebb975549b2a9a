//! A plan served by a hall: one driver registers all coflows, publishes their order once, and runs until nothing is
//! left.
#![tactic(auto)]

mod answer;
mod beginning;
mod camping;
pub mod laws;
mod planning;
mod reporting;
mod serving;

pub use answer::{HallPlan, PlanFault};
pub use planning::plan;
pub use reporting::served_plan;

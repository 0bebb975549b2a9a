//! Lower bounds that know arrivals: certificates of the cost of schedules that serve nobody before its arrival.
#![tactic(auto)]

mod best;
mod bssi;
mod certificate;
pub mod laws;
mod place;
mod step;
mod threshold;

pub use best::{Released, arrivals_cost, best_released, released_by};
pub use bssi::ReleaseBssi;
pub use certificate::{released_infeasible, released_total};
pub use place::ReleasePlace;
pub use threshold::Threshold;

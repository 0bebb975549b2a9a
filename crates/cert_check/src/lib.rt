//! A checker of reports of plans, by whomever made: it trusts nothing that they say, and answers yes, or the first
//! reason why a report is not right.
#![tactic(auto)]

mod certificate;
mod checking;
pub mod laws;
mod places;
mod schedule;
mod stated;
mod verdict;

pub use checking::check;
pub use places::{Named, coflows_of, out_of_range};
pub use verdict::{Reason, Verdict};

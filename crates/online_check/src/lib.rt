//! A checker of the texts of online runs, by whomever made: it trusts nothing that they say, and answers yes, or the
//! first reason why one is not right.
#![tactic(auto)]

mod any_report;
mod arrivals;
mod certificate;
mod checking;
mod early;
mod ends;
mod judging;
pub mod laws;
mod online_line;
mod places;
mod schedule;
mod verdict;
mod verdict_line;

pub use any_report::{AnyReport, read_any_report};
pub use arrivals::arrivals_of;
pub use checking::check_online;
pub use judging::{judge, verdict_on};
pub use verdict::{OnlineReason, OnlineVerdict};

//! Numbers of a schedule: completion times of coflows, overall and by group, and their text.
#![tactic(auto)]

mod digits;
mod finished;
mod groups;
pub mod laws;
mod percentile;
mod ratio;
mod rows;
mod stats;
mod summary;
mod value;
mod writing;

pub use finished::finished_of;
pub use rows::write_rows;
pub use stats::stats_of;
pub use summary::summary_of;
pub use value::{Finished, Group, Ranks, Stats, Summary, Totals};
pub use writing::write_stats;

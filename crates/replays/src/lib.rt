//! Policies under arrivals: coflows join as they arrive, a ranker is asked for an order at each epoch, and each row
//! says what its schedule costs.
#![tactic(auto)]

mod acting;
mod kept;
pub mod laws;
mod line;
mod news;
mod progress;
mod publishing;
mod questions;
mod record;
mod recording;
mod replaying;
mod reporting;
mod rows;
mod writing;

pub use record::{Recorded, record_replay};
pub use replaying::replay;
pub use reporting::replays_text;
pub use rows::{ReplayFault, ReplayRow, Replayed, replay_all};
pub use writing::{ReplayReport, write_replay};

//! The text of a printed journal: what clients and their driver asked a master and were answered, the orders that were
//! published, what pulls were told, and the schedule. Each value has one text, and each text stands for at most one
//! value.
#![tactic(auto)]

mod deals;
mod draft;
mod fields;
pub mod laws;
mod lines;
mod reading;
mod replies;
mod value;
mod writing;

pub use reading::read_live;
pub use value::{EntryLine, Live, MAX_ENTRIES, PullLine, Said, Word};
pub use writing::write_live;

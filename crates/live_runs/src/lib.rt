//! A run of `live` from its script to its text: a hall serves the script, a master on one thread answers the journal
//! anew, and the value that is printed is told by both.
#![tactic(auto)]

mod entries;
pub mod laws;
mod limit;
mod orders;
mod retelling;
mod running;
mod telling;
mod value;
mod words;

pub use limit::limit_of_read;
pub use running::run_live;
pub use telling::served_live;
pub use value::live_value;

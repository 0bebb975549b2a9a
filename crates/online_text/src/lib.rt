//! The text of an online run: the orders that were published, the schedule as it was served, and the bound that knows
//! arrivals.
#![tactic(auto)]

mod draft;
pub mod laws;
mod parts;
mod reading;
mod value;
mod writing;

pub use reading::{is_online, read_online};
pub use value::{DoneLine, Epoch, Online, OnlinePlace, ReleaseLine};
pub use writing::write_online;

//! A lock by tickets over one value that means a list of entries. A caller finds behind it all that it had seen, and at
//! the end the entries of each caller are exactly its own.
#![tactic(auto)]

mod chronicle;
pub mod laws;
mod lock;
mod plays;
mod seats;
mod steps;
mod view;

pub use chronicle::Chronicle;
pub use lock::{Turnstile, TurnstileBack};
pub use seats::{Root, Turn, TurnSeat};

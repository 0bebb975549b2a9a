//! The loop of `live`: a hall whose clients carry out a script round by round, each round beside a run of slots where
//! it asks for one, and whose driver then opens runs until nothing is left.
#![tactic(auto)]

mod answer;
mod beginning;
mod beside;
mod camping;
mod ending;
pub mod laws;
mod limit;
mod live;
mod opening;
mod pulls;
mod rounds;
mod seats;
mod serving;
mod stage;
mod stop;

pub use answer::{LiveFault, Served};
pub use limit::journal_limit;
pub use live::serve_live;

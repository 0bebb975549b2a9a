//! Grants on the words of ports: a poster grants a flow at a port, any of several agents draws the grant by one
//! exchange and reports how much it sent, and the poster settles it.
#![tactic(auto)]

mod answer;
mod board;
mod plays;
mod seat;
mod view;

pub use answer::{Draw, Drawn, Settled};
pub use board::PortBoard;
pub use seat::{AgentSeat, Poster};

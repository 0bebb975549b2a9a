//! Many clients of one master at once. Each takes its turns in a session of its own, which keeps a receipt of each, and
//! reads ranks without waiting.
#![tactic(auto)]

mod close;
mod desk;
mod driver;
mod granted;
mod hall;
mod receipt;
mod session;
mod turn;

pub use close::{CloseFault, Closing};
pub use driver::Driver;
pub use hall::Hall;
pub use receipt::{Answer, Receipt};
pub use session::Session;

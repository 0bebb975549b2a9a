//! Certificates: lower bounds on the cost of every schedule, and how far a patient schedule can be from them.
#![tactic(auto)]

mod budgets;
mod cert;
mod fronts;
pub mod laws;
mod value;

pub use budgets::{infeasible, payments};
pub use cert::{Cert, Charge};
pub use fronts::{COFLOWS, load_in_front, places_of};
pub use value::{bound, slack, squares, total};

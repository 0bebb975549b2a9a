//! Lines, fields and numbers of a text that people write: what the readers of a trace, of weights and of the words of
//! the command line share.
#![tactic(auto)]

mod decimals;
mod fields;
mod lines;
mod numbers;

pub use decimals::{Decimal, decimal_of};
pub use fields::Fields;
pub use lines::Lines;
pub use numbers::{is_number, number_of};

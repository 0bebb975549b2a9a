//! Rankers of coflows, asked side by side: what each of their orders costs on a trace, before and after they were told
//! how the first one went.
#![tactic(auto)]

mod by_key;
mod by_ratio;
mod classing;
mod comparing;
mod ending;
mod facts;
mod kinds;
pub mod laws;
mod order;
mod ranker;
mod reporting;
mod rounds;
mod row;
mod scoring;

pub use by_key::fill_by_key;
pub use classing::classes_text;
pub use comparing::compare;
pub use ending::{Ended, second_ends};
pub use facts::Facts;
pub use kinds::{Attained, Bssi0, Fifo, Sebf, Wsebf};
pub use order::{loads_of, order_of};
pub use ranker::Ranker;
pub use reporting::comparison_text;
pub use row::{Row, Scored};
pub use scoring::{Came, first_unfit};

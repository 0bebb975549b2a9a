//! Online runs as pictures.
use crate::value::{Span, Step};
use coflow_units::Items;

/// What an online run costs, what its certificate proves of every schedule that waits for arrivals, and what the
/// arrivals alone cost.
#[derive(Clone, Copy, Debug, PartialEq, Eq)]
pub struct RunCosts {
    /// The sum of weight times completion.
    pub cost: u128,
    /// No schedule that waits for arrivals costs less.
    pub total: u128,
    /// The sum of weight times arrival.
    pub arrivals: u128,
}

/// An online run as a picture: how many coflows have arrived and how many are completed by the end of each slot of a
/// span, when orders are published, and what the title tells.
#[derive(Drop)]
pub struct RunPicture {
    pub span: Span,
    /// How many coflows there are.
    pub coflows: u64,
    /// The curve of arrivals.
    pub arrivals: Items<Step>,
    /// The curve of completions.
    pub done: Items<Step>,
    /// When orders are published.
    pub ticks: Items<u64>,
    pub costs: RunCosts,
}

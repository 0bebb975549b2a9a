//! The rows of a comparison, and what an answer is worth.

/// One row: a ranker by its place on the bench, from 1, the round, 1 or 2, and what its answer in this round is worth.
#[derive(Clone, Copy, Debug, PartialEq, Eq)]
pub struct Row {
    pub index: u32,
    pub round: u32,
    pub result: Scored,
}

/// What an answer is worth.
#[derive(Clone, Copy, Debug, PartialEq, Eq)]
pub enum Scored {
    /// The answer is an order of the coflows: the sum of weight times completion in the schedule that serves it, in
    /// slots.
    Cost(u128),
    /// It is none: the first place, counted from 1, whose number is not a coflow's or stood earlier.
    Unfit(u32),
}

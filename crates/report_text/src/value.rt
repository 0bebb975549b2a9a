//! What a report says.
use coflow_units::{Items, Port};
use run_list::Runs;

/// One place of the order: the coflow's id, the port that the place charges, what it charges for each unit of load in
/// parts of 2^40 of a weight of 1, and the slot in which the coflow is completed.
#[derive(Clone, Copy, Debug, PartialEq, Eq)]
pub struct PlaceLine {
    pub id: u32,
    pub port: Port,
    pub y: u128,
    pub done: u64,
}

/// A plan with its certificate: the places of the order, first place first, the weights of their coflows, the lower
/// bound on the cost of any schedule, the slack of rounding, the cost of the schedule, and the schedule as runs of
/// equal slots. A text of version 1 has no weights.
#[derive(Drop)]
pub struct Report {
    pub places: Items<PlaceLine>,
    pub weights: Option<Items<u64>>,
    pub bound: u128,
    pub slack: u128,
    pub cost: u128,
    pub runs: Runs,
}

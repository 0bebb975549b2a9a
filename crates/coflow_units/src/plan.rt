//! The parts of a plan: places of an order, and runs of a schedule.
use crate::fabric::Port;
use crate::items::Items;

/// One place of an order.
#[derive(Clone, Copy, Debug, PartialEq, Eq)]
pub struct Place {
    pub coflow: u32,
    /// The port that this place charges; in the ordering certificate the first one with the greatest load of the
    /// coflows up to this place.
    pub port: Port,
    /// What each coflow up to this place pays for each unit of its load on the port, in parts of 2^40 of a weight of 1.
    pub y: u128,
    /// What the coflow keeps of its budget of weight times 2^40.
    pub rest: u128,
    /// The load of that port over the coflows up to this place, in units.
    pub load: u64,
}

/// Equal slots one after another, and the flows that each of them serves, ascending.
#[derive(Drop)]
pub struct Run {
    pub length: u64,
    pub flows: Items<u32>,
}

//! What the text of an online run says.
use coflow_units::{Items, Port};
use run_list::Runs;

/// One place of an order that was published: the coflow's id, the port that the place charges, and what it charges for
/// each unit of load that is left, in parts of 2^40 of a weight of 1.
#[derive(Clone, Copy, Debug, PartialEq, Eq)]
pub struct OnlinePlace {
    pub id: u32,
    pub port: Port,
    pub y: u128,
}

/// A publishing: its time in slots, the places of the order, first place first, and the lower bound on the cost of what
/// was left, in slots counted from that time.
#[derive(Drop)]
pub struct Epoch {
    pub time: u64,
    pub places: Items<OnlinePlace>,
    pub bound: u128,
}

/// A coflow by its id, and the slot in which it was completed, or 0 where it has no units.
#[derive(Clone, Copy, Debug, PartialEq, Eq)]
pub struct DoneLine {
    pub id: u32,
    pub slot: u64,
}

/// One place of the released certificate: the coflow's id, the port that the place charges, what it charges for each
/// unit of load, and what the coflow pays for each slot up to its earliest end, in parts of 2^40 of a weight of 1.
#[derive(Clone, Copy, Debug, PartialEq, Eq)]
pub struct ReleaseLine {
    pub id: u32,
    pub port: Port,
    pub y: u128,
    pub z: u128,
}

/// An online run: its publishings in the order of time, the completions of the coflows, the cost, the released
/// certificate, first place first, with its total, and the schedule as runs of equal slots.
#[derive(Drop)]
pub struct Online {
    pub epochs: Items<Epoch>,
    pub done: Items<DoneLine>,
    pub cost: u128,
    pub release: Items<ReleaseLine>,
    pub total: u128,
    pub runs: Runs,
}

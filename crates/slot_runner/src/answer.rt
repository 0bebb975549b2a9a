//! What a slot of a runner comes to.
use client_session::Driver;

/// What a slot came to.
#[derive(Clone, Copy, Debug, PartialEq, Eq)]
pub enum Ran {
    /// A run was opened and closed, of so many slots from this slot on, with so many flows. The wire of each flow's
    /// ingress port accepted one unit for each slot.
    Ran { slot: u64, length: u64, count: u32 },
    /// No coflow of the line owes a unit. No run was opened.
    Nothing,
    /// No slot is left: this one comes after the last. No run was opened.
    Late(u64),
    /// The journal has so many entries and no room. No run was opened.
    Full(u32),
    /// The driver has fewer calls left than a run may need. No turn was taken.
    Spent,
    /// A run was opened and closed, and the wire of this ingress port accepted fewer units than the run has slots: so
    /// many. It is the least such port, and the count of its wire's faults rose.
    WireFault { port: u32, sent: u64 },
    /// There is no memory for the agents. No turn was taken.
    NoMemory,
}

/// There is no memory for a runner. The driver is handed back as it was.
#[derive(Drop)]
pub struct RunnerBack {
    pub driver: Driver,
}

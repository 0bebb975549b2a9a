//! What can be wrong with a schedule.
use coflow_units::Port;

/// The first fault of a schedule. Slots count from 1, flows from 0.
#[derive(Clone, Copy, Debug, PartialEq, Eq)]
pub enum ScheduleFault {
    /// The slot holds a number that is no flow's.
    NoFlow { slot: u64, flow: u32 },
    /// Two flows of the slot use the port.
    Clash { slot: u64, port: Port },
    /// The flow stands in `have` slots and has `want` units.
    Units { flow: u32, have: u64, want: u64 },
}

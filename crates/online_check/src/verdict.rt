//! What a check of an online run answers.
use coflow_units::Port;

/// The verdict on an online run.
#[derive(Clone, Copy, Debug, PartialEq, Eq)]
pub enum OnlineVerdict {
    /// All that it says of its certificate, its schedule and its completions is right.
    Yes,
    /// It is not, and this is the first reason.
    No(OnlineReason),
}

/// Why an online run is not right. The kinds stand in the order in which they are looked for. `stated` is what its text
/// says, `real` what it should say. Coflows and flows have their numbers of the table, from 0; places, slots and lines
/// count from 1.
#[derive(Clone, Copy, Debug, PartialEq, Eq)]
pub enum OnlineReason {
    /// The id at this place of the released certificate is no coflow's or stands at a place before. Where places are
    /// too few, it is the one past the last.
    NotPermutation { place: u32 },
    /// The port at this place has a number that is out of range.
    PortRange { place: u32, number: u32 },
    /// This coflow, the least such one, pays more than its budget.
    Infeasible { coflow: u32 },
    /// The total is above that of the certificate.
    TotalTooHigh { stated: u128, real: u128 },
    /// The slot holds a number that is no flow's: the first such slot, and the least such number in it.
    NoFlow { slot: u64, flow: u32 },
    /// Two flows of the slot use the port: the first such slot, and the first such port in it, ingress ports first.
    ClashIn { slot: u64, port: Port },
    /// The flow, the least such one, stands in `have` slots and has `want` units.
    UnitsOf { flow: u32, have: u64, want: u64 },
    /// The slot, which is no later than the coflow's arrival, holds a flow of it: the first such slot, and the least
    /// such coflow in it.
    Early { slot: u64, coflow: u32 },
    /// The line of a completion with this number, the first such one, is missing, is one too many, or has another id
    /// than its coflow: line 1 is that of coflow 0.
    Listed { index: u32 },
    /// The completion of this coflow, the least such one, is another.
    DoneWrong { coflow: u32, stated: u64, real: u64 },
    /// The cost is not that of the schedule.
    CostWrong { stated: u128, real: u128 },
}

//! What a check answers.
use coflow_units::Port;

/// The verdict on a report.
#[derive(Clone, Copy, Debug, PartialEq, Eq)]
pub enum Verdict {
    /// All that the report says is right.
    Yes,
    /// It is not, and this is the first reason.
    No(Reason),
}

/// Why a report is not right. The kinds stand in the order in which they are looked for. `stated` is what the report
/// says, `real` what it should say. Coflows and flows have their numbers of the table, from 0; places and slots count
/// from 1.
#[derive(Clone, Copy, Debug, PartialEq, Eq)]
pub enum Reason {
    /// The id at this place is no coflow's or stands at a place before. Where places are too few, it is the one past
    /// the last.
    NotPermutation { place: u32 },
    /// The port at this place has a number that is out of range.
    PortRange { place: u32, number: u32 },
    /// The weight of this coflow, the least such one, is another.
    WeightWrong { coflow: u32, stated: u64, real: u64 },
    /// This coflow, the least such one, pays more than its budget.
    Infeasible { coflow: u32 },
    /// The bound is above that of the certificate.
    BoundTooHigh { stated: u128, real: u128 },
    /// The slack is not that of the certificate.
    SlackWrong { stated: u128, real: u128 },
    /// The slot holds a number that is no flow's: the first such slot, and the least such number in it.
    NoFlow { slot: u64, flow: u32 },
    /// Two flows of the slot use the port: the first such slot, and the first such port in it, ingress ports first.
    ClashIn { slot: u64, port: Port },
    /// The flow, the least such one, stands in `have` slots and has `want` units.
    UnitsOf { flow: u32, have: u64, want: u64 },
    /// The completion of this coflow, the least such one, is another.
    DoneWrong { coflow: u32, stated: u64, real: u64 },
    /// The cost is not that of the schedule.
    CostWrong { stated: u128, real: u128 },
    /// The cost is above `most`, which is four times the stated bound and the stated slack.
    RatioBroken { cost: u128, most: u128 },
}

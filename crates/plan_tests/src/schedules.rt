//! Schedules: cost, completions and patience.
ghost use Rattle.std.specs.Prelude.{◌≡◌, ◌+◌, ◌++◌, ◌≤◌, ◌^◌, All, length, replicate};
ghost use Rattle.std.specs.List.Sorted.{IsStrictlyIncreasing};
ghost use Rattle.coflow_units.specs.declared.limits.TheConstants.{MAX_COFLOWS, MAX_SLOT, MAX_WEIGHT};

use crate::inputs::{THREE, TWO, are_weights, had, is_told, table_of};
use coflow_units::Flow;
use run_list::Runs;
use schedule_model::{Schedule, completions, cost_of, find_fault, is_patient};
use std::alloc::Global;
use std::process::Abort;

/// Appends a run of so many slots.
pub(crate) fn push(rt: &impl Abort, schedule: &mut Schedule, slots: u64, flows: &[u32])
    requires some { 1 ≤ slots }
    requires ascending { IsStrictlyIncreasing flows.now }
    requires short { length schedule.old + slots ≤ MAX_SLOT }
    ensures pushed { schedule.new ≡ schedule.old ++ replicate slots flows.now }
{
    let Ok(()) = schedule.push_run(slots, flows) else {
        panic!(rt; "no memory");
    };
}

/// The schedule that serves three coflows in the order 0, 2, 1. Its run of two slots is appended in two parts.
pub(crate) fn worked(rt: &impl Abort, alloc: Global) -> Schedule {
    let mut schedule = Schedule::new(alloc);
    push(rt, &mut schedule, 1, &[0, 1, 5]);
    push(rt, &mut schedule, 1, &[1, 3]);
    push(rt, &mut schedule, 1, &[2, 3]);
    push(rt, &mut schedule, 1, &[2, 3]);
    push(rt, &mut schedule, 1, &[4, 5]);
    push(rt, &mut schedule, 2, &[2, 6]);
    push(rt, &mut schedule, 1, &[2]);
    schedule
}

/// The schedule that serves the shorter one of two coflows in the first slot, or in the slot behind it.
pub(crate) fn shorter_first(rt: &impl Abort, alloc: Global, idle: bool) -> Schedule {
    let mut schedule = Schedule::new(alloc);
    if idle {
        push(rt, &mut schedule, 1, &[]);
    }
    push(rt, &mut schedule, 1, &[1]);
    push(rt, &mut schedule, 3, &[0]);
    schedule
}

/// The text of a cost, of whether a schedule is patient, and of completions.
fn text_of(rt: &impl Abort, alloc: Global, cost: u128, patient: bool, ends: &[u64]) -> String {
    had(rt, format!(in alloc; "{cost} {patient} {ends:?}"))
}

/// The cost of a valid schedule, whether it is patient for the order, and its completions.
fn told(
    rt: &impl Abort,
    alloc: Global,
    flows: &[Flow],
    coflows: u32,
    weights: &[u64],
    order: &[u32],
    schedule: &Schedule,
) -> String
    requires flows { length flows.now ≤ 2 ^ 32 }
    requires small { All (λ w. w ≤ MAX_WEIGHT) weights.now }
    requires few { length weights.now ≤ MAX_COFLOWS }
    requires each { coflows ≡ length weights.now }
{
    let Ok(fault) = find_fault(alloc, flows, schedule) else {
        panic!(rt; "no memory");
    };
    let None = fault else {
        panic!(rt; "a fault");
    };
    let patient = had(rt, is_patient(alloc, flows, order, schedule));
    let ends = had(rt, completions(alloc, flows, coflows, schedule));
    let cost = cost_of(weights, &ends);
    let text = text_of(rt, alloc, cost, patient, ends.as_slice());
    drop(ends);
    text
}

/// Tests the same of a schedule of a trace.
fn expect(
    rt: &impl Abort,
    alloc: Global,
    trace: &str,
    weights: &[u64],
    order: &[u32],
    schedule: &Schedule,
    want: &str,
) {
    let fit = are_weights(weights);
    assert!(rt; fit);
    let table = table_of(rt, alloc, trace, 1);
    assert!(rt; weights.len() == table.coflows() as usize);
    let coflows = table.coflows();
    let have = told(rt, alloc, table.flows(), coflows, weights, order, schedule);
    drop(table);
    is_told(rt, &have, want);
    drop(have);
}

/// Two runs of the same flows are one.
fn are_joined(rt: &impl Abort, runs: &Runs) {
    assert!(rt; runs.count() == 6);
    assert!(rt; runs.slots(2) == 2);
}

/// An order, and what is told of the schedule of three coflows.
const ORDERS: &[(&[u32], &str)] = &[
    (&[0, 2, 1], "16 true [1, 8, 7]"),
    (&[0, 1, 2], "16 false [1, 8, 7]"),
];

/// The weights and an order of two coflows, whether the first slot is idle, and what is told of the schedule that
/// serves the shorter one first.
type Shorter = (&'static [u64], &'static [u32], bool, &'static str);

const SHORTER: &[Shorter] = &[
    (&[1, 1], &[1, 0], false, "5 true [4, 1]"),
    (&[1, 1], &[0, 1], false, "5 false [4, 1]"),
    (&[5, 1], &[1, 0], false, "21 true [4, 1]"),
    (&[1, 1], &[1, 0], true, "7 false [5, 2]"),
];

/// Tests the schedule of three coflows.
fn try_worked(rt: &impl Abort, alloc: Global) {
    let schedule = worked(rt, alloc);
    are_joined(rt, schedule.runs());
    for (order, want) in ORDERS {
        expect(rt, alloc, THREE, &[1, 1, 1], order, &schedule, want);
    }
    drop(schedule);
}

/// Tests a row of two coflows.
fn try_shorter(rt: &impl Abort, alloc: Global, row: &Shorter) {
    let (weights, order, idle, want) = *row;
    let schedule = shorter_first(rt, alloc, idle);
    expect(rt, alloc, TWO, weights, order, &schedule, want);
    drop(schedule);
}

#[test]
fn cost_patience_and_completions(rt: HostRuntime) {
    try_worked(&rt, rt.alloc());
    for row in SHORTER {
        try_shorter(&rt, rt.alloc(), row);
    }
}

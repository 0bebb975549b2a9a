//! Numbers of schedules: what is told of coflows, their durations by group, and the texts. Each row was worked out by
//! hand.
ghost use Rattle.std.specs.Prelude.{◌≡◌, ◌≤◌, All, IfSome, IsTrue};
ghost use Rattle.coflow_stats.specs.declared.value.Finished.{Finished};
ghost use Rattle.coflow_units.specs.declared.limits.TheConstants.{MAX_SLOT_MS, MAX_WEIGHT};

use crate::inputs::{THREE, TWO, had, table_of};
use crate::schedules::{push, shorter_first, worked};
use coflow_stats::{Finished, Totals, finished_of, stats_of, write_rows, write_stats};
use coflow_units::{Items, MAX_COFLOWS, MAX_SLOT_MS, MAX_WEIGHT};
use flow_table::Table;
use schedule_model::{Schedule, find_fault};
use std::alloc::Global;
use std::process::Abort;
use std::str::from_utf8;

/// How numbers are told: the megabytes of a unit, the milliseconds of a slot, or 0 where they are not given, and what
/// is known of the schedule.
#[derive(Clone, Copy)]
struct Telling {
    unit: u64,
    slot_ms: u64,
    totals: Totals,
}

/// A coflow of weight 2 with so many flows, the longest of so many units, its arrival and its completion.
fn coflow(flows: u32, longest: u64, arrival: u64, completion: u64) -> Finished
    ensures { result.weight ≡ 2 }
{
    Finished {
        id: 1,
        arrival,
        flows,
        units: longest,
        longest,
        bottleneck: longest,
        weight: 2,
        completion,
    }
}

/// Tests what the numbers require of weights.
fn are_light(coflows: &[Finished]) -> bool
    ensures { IsTrue result → All (λ (x : Finished). x.weight ≤ MAX_WEIGHT) coflows.now }
{
    coflows.iter().all(|coflow| coflow.weight <= MAX_WEIGHT)
}

/// The milliseconds of a slot, where they are given.
fn given(slot_ms: u64) -> Option<u64>
    ensures { IfSome result (λ ms. ms ≤ MAX_SLOT_MS) }
{
    if slot_ms == 0 || slot_ms > MAX_SLOT_MS {
        return None;
    }
    Some(slot_ms)
}

/// Stops where another text is written.
fn is_written(rt: &impl Abort, text: &[u8], want: &str) {
    if text != want.as_bytes() {
        let have = from_utf8(text).unwrap_or("no text");
        panic!(rt; "{have} is written in place of {want}");
    }
}

/// Tests the text of the numbers of a schedule.
fn try_numbers(
    rt: &impl Abort,
    alloc: Global,
    telling: Telling,
    schedule: &Schedule,
    coflows: &[Finished],
    want: &str,
) {
    let light = are_light(coflows);
    assert!(rt; light);
    assert!(rt; coflows.len() <= MAX_COFLOWS as usize);
    assert!(rt; telling.totals.cost <= 1_000_000);
    let stats = had(
        rt,
        stats_of(
            alloc,
            telling.unit,
            telling.totals,
            schedule.kept(),
            coflows,
        ),
    );
    let text = had(rt, write_stats(alloc, &stats, given(telling.slot_ms)));
    is_written(rt, &text, want);
    drop(text);
}

/// A coflow: how many flows, the units of the longest, its arrival and its completion.
type Told = (u32, u64, u64, u64);

/// How numbers are told, the coflows, and the text.
type Numbers = (Telling, &'static [Told], &'static str);

const NUMBERS: &[Numbers] = &[
    (
        Telling {
            unit: 1,
            slot_ms: 0,
            totals: Totals {
                bound: 0,
                cost: 0,
                online: false,
            },
        },
        &[],
        "sincronia stats 1\ncoflows 0\nbound 0\ncost 0\nratio -\nmakespan 4\nslots all 0\nslots short-narrow 0\nslots long-narrow 0\nslots short-wide 0\nslots long-wide 0\nend\n",
    ),
    (
        Telling {
            unit: 1,
            slot_ms: 0,
            totals: Totals {
                bound: 7,
                cost: 9,
                online: false,
            },
        },
        &[(50, 4, 0, 7), (50, 5, 0, 8), (51, 4, 0, 9), (51, 5, 0, 30)],
        "sincronia stats 1\ncoflows 4\nbound 7\ncost 9\nratio 1.2858\nmakespan 4\nslots all 4 mean 13.500 median 8 p95 30 p99 30\nslots short-narrow 1 mean 7.000 median 7 p95 7 p99 7\nslots long-narrow 1 mean 8.000 median 8 p95 8 p99 8\nslots short-wide 1 mean 9.000 median 9 p95 9 p99 9\nslots long-wide 1 mean 30.000 median 30 p95 30 p99 30\nend\n",
    ),
    (
        Telling {
            unit: 2,
            slot_ms: 8,
            totals: Totals {
                bound: 100,
                cost: 130,
                online: true,
            },
        },
        &[(1, 2, 3, 5), (1, 2, 4, 6), (0, 0, 9, 0)],
        "sincronia stats 1\ncoflows 3\nbound 100\ncost 130\nratio 1.3000\narrivals 14\nnet-bound 86\nnet-cost 116\nnet-ratio 1.3489\nmakespan 4\nslots all 3 mean 1.333 median 2 p95 2 p99 2\nslots short-narrow 3 mean 1.333 median 2 p95 2 p99 2\nslots long-narrow 0\nslots short-wide 0\nslots long-wide 0\nms all 3 mean 10.666 median 16 p95 16 p99 16\nms short-narrow 3 mean 10.666 median 16 p95 16 p99 16\nms long-narrow 0\nms short-wide 0\nms long-wide 0\nend\n",
    ),
    (
        Telling {
            unit: 2,
            slot_ms: 0,
            totals: Totals {
                bound: 10,
                cost: 40,
                online: true,
            },
        },
        &[(1, 3, 3, 5), (1, 3, 4, 6), (0, 0, 9, 0)],
        "sincronia stats 1\ncoflows 3\nbound 10\ncost 40\nratio 4.0000\narrivals 14\nnet-bound 0\nnet-cost 26\nnet-ratio -\nmakespan 4\nslots all 3 mean 1.333 median 2 p95 2 p99 2\nslots short-narrow 1 mean 0.000 median 0 p95 0 p99 0\nslots long-narrow 2 mean 2.000 median 2 p95 2 p99 2\nslots short-wide 0\nslots long-wide 0\nend\n",
    ),
];

/// Tests a row of numbers, of a schedule of four slots.
fn try_row(rt: &impl Abort, alloc: Global, row: &Numbers) {
    let (telling, told, want) = *row;
    let mut coflows = Vec::new(alloc);
    for (flows, longest, arrival, completion) in told {
        had(
            rt,
            coflows.push(coflow(*flows, *longest, *arrival, *completion)),
        );
    }
    let schedule = shorter_first(rt, alloc, false);
    try_numbers(rt, alloc, telling, &schedule, &coflows, want);
    drop(schedule);
    drop(coflows);
}

#[test]
fn numbers_and_their_text(rt: HostRuntime) {
    for row in NUMBERS {
        try_row(&rt, rt.alloc(), row);
    }
}

/// How many coflows, which are completed in the slots from 1 to that number, and the mean and the ranks of their
/// completions.
const RANKS: &[(u64, &str)] = &[
    (1, "1 mean 1.000 median 1 p95 1 p99 1"),
    (2, "2 mean 1.500 median 1 p95 2 p99 2"),
    (20, "20 mean 10.500 median 10 p95 19 p99 20"),
    (101, "101 mean 51.000 median 51 p95 96 p99 100"),
];

/// Tests the ranks of so many completions, the last one first.
fn try_ranks(rt: &impl Abort, alloc: Global, count: u64, line: &str) {
    let mut coflows = Vec::new(alloc);
    for place in 0..count {
        had(rt, coflows.push(coflow(1, 1, 0, count - place)));
    }
    let want = had(
        rt,
        format!(in alloc;
            "sincronia stats 1\ncoflows {count}\nbound 3\ncost 3\nratio 1.0000\nmakespan 0\nslots all {line}\nslots short-narrow {line}\nslots long-narrow 0\nslots short-wide 0\nslots long-wide 0\nend\n"
        ),
    );
    let totals = Totals {
        bound: 3,
        cost: 3,
        online: false,
    };
    let telling = Telling {
        unit: 1,
        slot_ms: 0,
        totals,
    };
    let schedule = Schedule::new(alloc);
    try_numbers(rt, alloc, telling, &schedule, &coflows, &want);
    drop(schedule);
    drop(want);
    drop(coflows);
}

#[test]
fn ranks_of_completions(rt: HostRuntime) {
    for (count, line) in RANKS {
        try_ranks(&rt, rt.alloc(), *count, line);
    }
}

/// The coflows of a valid schedule of a trace, with their weights and arrivals.
fn coflows_of(
    rt: &impl Abort,
    alloc: Global,
    table: &Table,
    weights: &[u64],
    arrivals: &[u64],
    schedule: &Schedule,
) -> Items<Finished> {
    assert!(rt; weights.len() == table.coflows() as usize);
    assert!(rt; arrivals.len() == table.coflows() as usize);
    let Ok(fault) = find_fault(alloc, table.flows(), schedule) else {
        panic!(rt; "no memory");
    };
    let None = fault else {
        panic!(rt; "a fault");
    };
    had(
        rt,
        finished_of(alloc, table, weights, arrivals, schedule.kept()),
    )
}

/// Tests the rows of the coflows of a schedule of a trace.
fn try_rows(
    rt: &impl Abort,
    alloc: Global,
    trace: &str,
    numbers: (&[u64], &[u64]),
    schedule: &Schedule,
    want: &str,
) {
    let (weights, arrivals) = numbers;
    let table = table_of(rt, alloc, trace, 1);
    let coflows = coflows_of(rt, alloc, &table, weights, arrivals, schedule);
    let text = had(rt, write_rows(alloc, 1, coflows.as_slice()));
    is_written(rt, &text, want);
    drop(text);
    drop(coflows);
    drop(table);
}

/// Tests the rows of a coflow without units, and of one behind it.
fn try_empty(rt: &impl Abort, alloc: Global) {
    let mut schedule = Schedule::new(alloc);
    push(rt, &mut schedule, 1, &[0]);
    let trace = "2 2\n1 0 1 0 0\n2 0 1 0 1 1:1\n";
    let want =
        "id,arrival,flows,units,bottleneck,weight,completion,duration,group\n1,9,0,0,0,3,0,0,short-narrow\n2,0,1,1,1,1,1,1,short-narrow\n";
    try_rows(rt, alloc, trace, (&[3, 1], &[9, 0]), &schedule, want);
    drop(schedule);
}

/// Tests the rows of two coflows on the same ports.
fn try_two(rt: &impl Abort, alloc: Global) {
    let schedule = shorter_first(rt, alloc, false);
    let want =
        "id,arrival,flows,units,bottleneck,weight,completion,duration,group\n1,0,1,3,3,1,4,4,short-narrow\n2,0,1,1,1,1,1,1,short-narrow\n";
    try_rows(rt, alloc, TWO, (&[1, 1], &[0, 0]), &schedule, want);
    drop(schedule);
}

/// Tests the rows of three coflows that arrive one after another.
fn try_three(rt: &impl Abort, alloc: Global) {
    let schedule = worked(rt, alloc);
    let want =
        "id,arrival,flows,units,bottleneck,weight,completion,duration,group\n1,0,1,1,1,4,1,1,short-narrow\n2,2,2,7,7,5,8,6,long-narrow\n3,7,4,8,7,6,7,0,short-narrow\n";
    try_rows(rt, alloc, THREE, (&[4, 5, 6], &[0, 2, 7]), &schedule, want);
    drop(schedule);
}

#[test]
fn rows_of_coflows(rt: HostRuntime) {
    let none = Schedule::new(rt.alloc());
    let want = "id,arrival,flows,units,bottleneck,weight,completion,duration,group\n";
    try_rows(&rt, rt.alloc(), "1 0\n", (&[], &[]), &none, want);
    drop(none);
    try_empty(&rt, rt.alloc());
    try_two(&rt, rt.alloc());
    try_three(&rt, rt.alloc());
}

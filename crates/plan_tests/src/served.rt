//! Orders that are served run by run.
ghost use Rattle.std.specs.Prelude.{◌<◌, ℕ, All, Contains, IsTrue};
ghost use Rattle.coflow_units.specs.Flows.{IsDistinct};

use crate::inputs::{THREE, TWO, had, is_told, table_of};
use flow_table::Table;
use run_list::Runs;
use slot_switch::simulate;
use std::alloc::Global;
use std::process::Abort;

/// Tests that no coflow stands twice.
fn is_distinct(order: &[u32]) -> bool
    ensures { IsTrue result → IsDistinct order.now }
{
    for place in 0..order.len() {
        if order[..place].contains(&order[place]) {
            return false;
        }
    }
    true
}

/// Tests that each coflow of the order is below the count.
fn are_below(order: &[u32], count: u32) -> bool
    ensures { IsTrue result → All (λ c. c < count) order.now }
{
    order.iter().all(|coflow| *coflow < count)
}

/// Tests that the order has each coflow below the count.
fn has_all_below(order: &[u32], count: u32) -> bool
    ensures { IsTrue result → (c : ℕ) → c < count → Contains order.now c }
{
    for coflow in 0..count {
        if order.contains(&coflow) {
            continue;
        }
        return false;
    }
    true
}

/// Serves an order, and tells how many slots each run has and which flows.
fn told(rt: &impl Abort, alloc: Global, table: &Table, order: &[u32]) -> String {
    let coflows = table.coflows();
    let fit = is_distinct(order) && are_below(order, coflows) && has_all_below(order, coflows);
    assert!(rt; fit);
    let schedule = had(rt, simulate(alloc, table, order));
    let text = runs_told(rt, alloc, schedule.runs());
    drop(schedule);
    text
}

/// The text of runs.
fn runs_told(rt: &impl Abort, alloc: Global, runs: &Runs) -> String {
    let mut text = String::new(alloc);
    let mut walk = had(rt, runs.walk(alloc));
    for _place in 0..runs.count() {
        let slots = walk.enter();
        let written = write!(text, "{slots} of {:?}; ", walk.flows());
        had(rt, written);
    }
    drop(walk);
    text
}

/// Two coflows whose flows meet at each port.
const TIES: &str = "1 2\n1 0 2 0 1 1 0:2\n2 0 2 0 1 1 1:2\n";

/// A trace, how many megabytes a unit has, an order of its coflows, and the runs that serve it, as they were worked out
/// by hand.
type Row = (&'static str, u64, &'static [u32], &'static str);

const ROWS: &[Row] = &[
    (TWO, 1, &[0, 1], "3 of [0]; 1 of [1]; "),
    (TWO, 2, &[1, 0], "1 of [1]; 2 of [0]; "),
    (
        THREE,
        1,
        &[0, 2, 1],
        "1 of [0, 1, 5]; 1 of [1, 3]; 2 of [2, 3]; 1 of [4, 5]; 2 of [2, 6]; 1 of [2]; ",
    ),
    (
        THREE,
        1,
        &[1, 2, 0],
        "2 of [1, 3]; 1 of [2, 3]; 2 of [2, 5]; 2 of [2, 6]; 1 of [4]; 1 of [0]; ",
    ),
    (
        THREE,
        3,
        &[2, 0, 1],
        "1 of [1, 3]; 1 of [4, 5]; 1 of [0, 6]; 2 of [2]; ",
    ),
    (TIES, 1, &[0, 1], "1 of [0, 3]; 1 of [1, 2]; "),
    (TIES, 1, &[1, 0], "1 of [1, 2]; 1 of [0, 3]; "),
];

/// Tests a row.
fn try_row(rt: &impl Abort, alloc: Global, row: &Row) {
    let (text, unit, order, want) = *row;
    let table = table_of(rt, alloc, text, unit);
    let have = told(rt, alloc, &table, order);
    drop(table);
    is_told(rt, &have, want);
    drop(have);
}

#[test]
fn orders_are_served_in_these_runs(rt: HostRuntime) {
    for row in ROWS {
        try_row(&rt, rt.alloc(), row);
    }
}

//! What tests begin with, and how they show rows. A test that finds no memory stops at once.
ghost use Rattle.std.specs.Prelude.{◌≤◌, All, IsTrue};
ghost use Rattle.coflow_units.specs.declared.limits.TheConstants.{MAX_WEIGHT};

use coflow_units::{MAX_WEIGHT, NoMemory, UnitSize};
use flow_table::Table;
use rankers::{Attained, Facts, Ranker, Row, compare};
use std::alloc::Global;
use std::process::Abort;
use test_support::table_of_text;

/// Two coflows that share both ports, of 3 units and of 1 unit.
pub(crate) const TWO: &str = "2 2\n1 0 1 0 1 1:3\n2 0 1 0 1 1:1\n";

/// The first coflow ends after the second one where it is served first.
pub(crate) const LONG_FIRST: &str = "2 2\n1 0 1 0 2 1:1 2:4\n2 0 1 1 1 1:1\n";

/// The value of an answer that only want of memory can refuse.
pub(crate) fn had<T, E: Drop>(rt: &impl Abort, answer: Result<T, E>) -> T {
    match answer {
        Ok(value) => value,
        Err(_) => panic!(rt; "no memory"),
    }
}

/// Puts a ranker at the end of the bench.
pub(crate) fn seat(rt: &impl Abort, bench: &mut Vec<Box<dyn Ranker>>, ranker: Box<dyn Ranker>) {
    had(rt, bench.push(ranker));
}

/// A ranker that learns, with room for so many notes.
pub(crate) fn attained(rt: &impl Abort, alloc: Global, room: u32) -> Box<dyn Ranker> {
    let ranker = had(rt, Attained::new(alloc, room));
    let boxed = had(rt, Box::new(alloc, ranker));
    boxed
}

/// A bench has these rows on a trace, where a unit has one megabyte, and is empty then.
pub(crate) fn are_rows(
    rt: &impl Abort,
    alloc: Global,
    trace: &str,
    weights: &[u64],
    mut bench: Vec<Box<dyn Ranker>>,
    want: &str,
) {
    let have = shown(rt, alloc, trace, weights, &mut bench);
    assert!(rt; bench.is_empty());
    if have.as_str() != want {
        panic!(rt; "{have} is told in place of {want}");
    }
}

/// The rows of a bench on a trace, as a text.
fn shown(
    rt: &impl Abort,
    alloc: Global,
    trace: &str,
    weights: &[u64],
    bench: &mut Vec<Box<dyn Ranker>>,
) -> String {
    let table = table_of(rt, alloc, trace);
    let rows = had(rt, rows_on(rt, alloc, &table, weights, bench));
    told(rt, alloc, rows.as_slice())
}

/// Each row with its index, its round and its result.
fn told(rt: &impl Abort, alloc: Global, rows: &[Row]) -> String {
    let mut text = String::new(alloc);
    for row in rows {
        had(
            rt,
            write!(text, "{} {} {:?}; ", row.index, row.round, row.result),
        );
    }
    text
}

/// The rows of a bench on a table. Where memory is wanting, what is left of the bench stays in it.
pub(crate) fn rows_on(
    rt: &impl Abort,
    alloc: Global,
    table: &Table,
    weights: &[u64],
    bench: &mut Vec<Box<dyn Ranker>>,
) -> Result<Vec<Row>, NoMemory> {
    assert!(rt; weights.len() == table.coflows() as usize);
    let fit = are_weights(weights);
    assert!(rt; fit);
    assert!(rt; bench.len() < 1 << 32);
    let Ok(facts) = Facts::of(alloc, table, weights) else {
        panic!(rt; "no memory");
    };
    compare(alloc, table, weights, &facts, bench)
}

/// The flows of a trace.
pub(crate) fn table_of(rt: &impl Abort, alloc: Global, trace: &str) -> Table {
    let Ok(table) = table_of_text(alloc, trace.as_bytes(), UnitSize::MEGABYTE) else {
        panic!(rt; "no table");
    };
    table
}

/// Tests what calls require of weights.
pub(crate) fn are_weights(weights: &[u64]) -> bool
    ensures { IsTrue result → All (λ w. w ≤ MAX_WEIGHT) weights.now }
{
    weights.iter().all(|weight| *weight <= MAX_WEIGHT)
}

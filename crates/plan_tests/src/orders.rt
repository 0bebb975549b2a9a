//! What rankers answer on small traces.
use crate::bench_inputs::{TWO, are_weights, had, table_of};
use crate::counting::Deadlines;
use rankers::{Facts, Ranker, Wsebf};
use std::alloc::Global;
use std::process::Abort;

/// No coflow.
const NONE: &str = "2 0\n";

/// One coflow, of 3 units.
const ONE: &str = "2 1\n1 0 1 0 1 1:3\n";

/// Coflows of 2 units and of 1 unit.
const HALVES: &str = "2 2\n1 0 1 0 1 1:2\n2 0 1 0 1 1:1\n";

/// A coflow of 1 unit, and one without units.
const EMPTY_LAST: &str = "2 2\n1 0 1 0 1 1:1\n2 0 1 0 0\n";

/// Coflows of 2^32 - 2 and of 2^32 - 3 units.
const LARGE: &str = "2 2\n1 0 1 0 1 1:4294967294\n2 0 1 0 1 1:4294967293\n";

/// Coflows of 2^32 - 1 and of 2^32 - 2 units.
const LARGER: &str = "2 2\n1 0 1 0 1 1:4294967295\n2 0 1 0 1 1:4294967294\n";

/// Traces with weights, and the order of `wsebf`.
const BY_RATIO: &[(&str, &[u64], &str)] = &[
    (NONE, &[], "[]"),
    (ONE, &[5], "[0]"),
    // 3 and 1; 3/6 and 1/1; 3/3 and 1/1; 3/2 and 1/1, which are both 1 in whole units
    (TWO, &[1, 1], "[1, 0]"),
    (TWO, &[6, 1], "[0, 1]"),
    (TWO, &[3, 1], "[0, 1]"),
    (TWO, &[2, 1], "[1, 0]"),
    // 2/4 and 1/2, and the greatest weights with one ratio
    (HALVES, &[4, 2], "[0, 1]"),
    (HALVES, &[4294967296, 2147483648], "[0, 1]"),
    // just above it and just below it
    (HALVES, &[4294967295, 2147483648], "[1, 0]"),
    (HALVES, &[4294967296, 2147483647], "[0, 1]"),
    // 1 - 1/(2^32 - 1) and 1 - 1/(2^32 - 2), of which the second one is less by one part of 2^64 after rounding
    (LARGE, &[4294967295, 4294967294], "[1, 0]"),
    // 1 - 1/2^32 and 1 - 1/(2^32 - 1)
    (LARGER, &[4294967296, 4294967295], "[1, 0]"),
    // no units are least at any weight
    (EMPTY_LAST, &[4294967296, 1], "[1, 0]"),
    // a weight of 0 comes last, also without units, and two of them by number
    (TWO, &[0, 1], "[1, 0]"),
    (TWO, &[1, 0], "[0, 1]"),
    (TWO, &[0, 0], "[0, 1]"),
    (EMPTY_LAST, &[1, 0], "[0, 1]"),
];

#[test]
fn wsebf_goes_by_bottleneck_over_weight(rt: HostRuntime) {
    for (trace, weights, want) in BY_RATIO {
        let ranker = had(&rt, Box::new(rt.alloc(), Wsebf));
        is_order(&rt, rt.alloc(), trace, weights, ranker, want);
    }
}

/// Deadlines of the coflows of `TWO`, and the order.
const BY_DEADLINE: &[(&[u64], &str)] = &[
    (&[9, 5], "[1, 0]"),
    (&[5, 9], "[0, 1]"),
    (&[5, 5], "[0, 1]"),
    (&[9], "[1, 0]"),
    (&[], "[0, 1]"),
    (&[9, 5, 1], "[1, 0]"),
];

/// A ranker of one's own goes by keys.
#[test]
fn deadlines_come_by_slot(rt: HostRuntime) {
    for (deadlines, want) in BY_DEADLINE {
        let slots = had(&rt, Vec::from_slice(rt.alloc(), deadlines));
        let ranker = had(&rt, Box::new(rt.alloc(), Deadlines { slots }));
        is_order(&rt, rt.alloc(), TWO, &[1, 1], ranker, want);
    }
}

/// A ranker puts the coflows of a trace in this order.
fn is_order(
    rt: &impl Abort,
    alloc: Global,
    trace: &str,
    weights: &[u64],
    ranker: Box<dyn Ranker>,
    want: &str,
) {
    let have = order_of(rt, alloc, trace, weights, ranker);
    if have.as_str() != want {
        panic!(rt; "{have} is answered in place of {want}");
    }
}

/// The order of a ranker on a trace, where a unit has one megabyte.
fn order_of(
    rt: &impl Abort,
    alloc: Global,
    trace: &str,
    weights: &[u64],
    mut ranker: Box<dyn Ranker>,
) -> String {
    let table = table_of(rt, alloc, trace);
    assert!(rt; weights.len() == table.coflows() as usize);
    let fit = are_weights(weights);
    assert!(rt; fit);
    let facts = had(rt, Facts::of(alloc, &table, weights));
    let mut order = had(rt, vec![in alloc; 0u32; facts.coflows() as usize]);
    ask(rt, &mut ranker, &facts, &mut order);
    had(rt, format!(in alloc; "{order:?}"))
}

/// Asks the ranker.
fn ask(rt: &impl Abort, ranker: &mut Box<dyn Ranker>, facts: &Facts, order: &mut [u32]) {
    assert!(rt; order.len() == facts.coflows() as usize);
    ranker.rank(facts, order);
}

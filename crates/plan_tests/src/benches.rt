//! Benches of rankers, asked on small traces.
use crate::bench_inputs::{LONG_FIRST, TWO, are_rows, attained, had, rows_on, seat, table_of};
use crate::counting::{Counting, Tally};
use coflow_units::NoMemory;
use rankers::{Fifo, Ranker, Row};
use std::alloc::Global;
use std::process::Abort;
use std::rc::Rc;

/// The coflow that ended first comes first in the second round, where there is room for the note of the other one.
#[test]
fn attained_learns(rt: HostRuntime) {
    for (room, want) in [
        (4096, "1 1 Cost(7); 1 2 Cost(6); "),
        (1, "1 1 Cost(7); 1 2 Cost(6); "),
        (0, "1 1 Cost(7); 1 2 Cost(7); "),
    ] {
        let mut bench = Vec::new(rt.alloc());
        seat(&rt, &mut bench, attained(&rt, rt.alloc(), room));
        are_rows(&rt, rt.alloc(), LONG_FIRST, &[1, 1], bench, want);
    }
}

/// Two rankers exchange their places, and keep their rows but for the index. One of them learns.
#[test]
fn rows_go_with_their_rankers(rt: HostRuntime) {
    for (fifo_first, want) in [
        (true, "1 1 Cost(7); 1 2 Cost(7); 2 1 Cost(7); 2 2 Cost(6); "),
        (
            false,
            "1 1 Cost(7); 1 2 Cost(6); 2 1 Cost(7); 2 2 Cost(7); ",
        ),
    ] {
        let mut bench = Vec::new(rt.alloc());
        let fifo = had(&rt, Box::new(rt.alloc(), Fifo));
        seat(&rt, &mut bench, fifo);
        seat(&rt, &mut bench, attained(&rt, rt.alloc(), 2));
        if !fifo_first {
            bench.reverse();
        }
        are_rows(&rt, rt.alloc(), LONG_FIRST, &[1, 1], bench, want);
    }
}

/// Rankers are asked twice, told of each coflow once, and dropped. Where memory is wanting in the middle, those that
/// were asked are dropped, and the others are on the bench: `checks/refused_in_tests.py` refuses one allocation after
/// another.
#[test]
fn rankers_are_counted(rt: HostRuntime) {
    let alloc = rt.alloc();
    let mut tallies = Vec::new(alloc);
    let mut bench = Vec::new(alloc);
    for _ in 0..3 {
        let tally = had(&rt, Rc::new(alloc, Tally::new()));
        had(&rt, tallies.push(had(&rt, tally.clone())));
        let counting = had(&rt, Box::new(alloc, Counting { tally }));
        seat(&rt, &mut bench, counting);
    }
    let rows = rows_of_two(&rt, alloc, &mut bench);
    let gone = reached(&rt, &tallies);
    assert!(rt; bench.len().saturating_add(gone) == 3);
    had(&rt, rows);
    were_asked(&rt, &tallies);
    assert!(rt; bench.is_empty());
}

/// The rows of a bench on two coflows, each of weight 1.
fn rows_of_two(
    rt: &impl Abort,
    alloc: Global,
    bench: &mut Vec<Box<dyn Ranker>>,
) -> Result<Vec<Row>, NoMemory> {
    let table = table_of(rt, alloc, TWO);
    rows_on(rt, alloc, &table, &[1, 1], bench)
}

/// Each ranker was asked twice, and told of two coflows.
fn were_asked(rt: &impl Abort, tallies: &[Rc<Tally>]) {
    for tally in tallies {
        assert!(rt; tally.asked.get() == 2 && tally.told.get() == 2);
    }
}

/// How many rankers were asked. They are the first ones, and they alone were dropped, once each.
fn reached(rt: &impl Abort, tallies: &[Rc<Tally>]) -> usize {
    let mut count = 0usize;
    let mut goes_on = true;
    for tally in tallies {
        let asked = tally.asked.get() > 0;
        assert!(rt; tally.dropped.get() == u32::from(asked));
        assert!(rt; goes_on || !asked);
        goes_on = asked;
        count = count.saturating_add(usize::from(asked));
    }
    count
}

//! Runs on wires in memory that were worked out by hand.
ghost use Rattle.std.specs.Prelude.{◌≡◌};
ghost use Rattle.slot_runner.specs.Models.{MayRun};

use crate::stage::stage_of;
use crate::told::{is_told, tell_journal, tell_run, tell_wire};
use client_session::Hall;
use coflow_units::MAX_SLOT;
use outside::MemWire;
use slot_runner::Runner;
use std::alloc::Global;
use std::process::Abort;
use std::sync::Wait;
use std::test::*;
use std::thread::Threads;

/// One flow of 4 units.
const ONE: &str = "1 1\n1 0 1 0 1 1:4\n";

/// A flow of 3 units and one of 1 unit, between the same ports.
const SAME: &str = "1 2\n1 0 1 0 1 1:3\n2 0 1 0 1 1:1\n";

/// Two coflows, each of a unit from both ingress ports to one egress port. Each slot grants both ports.
const CROSSED: &str = "1 2\n1 0 2 0 1 1 0:2\n2 0 2 0 1 1 1:2\n";

/// A flow of 5 units and one of 4 units, which share no port.
const APART: &str = "1 2\n1 0 1 0 1 0:5\n2 0 1 1 1 1:4\n";

/// One flow of 2^40 units.
const LONG: &str = "1 1\n1 0 1 0 1 1:1099511627776\n";

/// Runs of a runner whose driver has so many calls, in a hall whose journal has room for so many entries. Of each wire
/// the unit with this number is not accepted, or none. The runs are of at most so many slots each.
#[derive(Clone, Copy)]
struct Row<'a> {
    trace: &'a str,
    limit: u32,
    calls: u32,
    fail_at: [u64; 2],
    agents: u32,
    most: &'a [u64],
    want: &'a str,
}

/// Two wires, of which the units with these numbers are not accepted.
fn wires_of<R: Abort>(rt: &R, alloc: Global, fail_at: [u64; 2]) -> [MemWire; 2] {
    let Ok(one) = MemWire::new(alloc, 8, Some(fail_at[0])) else {
        panic!(rt; "no memory");
    };
    let Ok(two) = MemWire::new(alloc, 8, Some(fail_at[1])) else {
        panic!(rt; "no memory");
    };
    [one, two]
}

/// Makes the runs.
fn run_all<R: Threads + Wait + Sync + Abort>(
    rt: &R,
    alloc: Global,
    hall: &Hall,
    runner: &mut Runner,
    row: Row<'_>,
    text: &mut String,
)
    requires may { MayRun hall.now runner.old }
    requires ports { hall.now.setting.opening.table.ports ≡ 2 }
    ensures may { MayRun hall.entry.now runner.new }
{
    let mut wires = wires_of(rt, alloc, row.fail_at);
    for most in row.most {
        let (most, agents) = ((*most).max(1), row.agents.max(1));
        tell_run(rt, alloc, hall, runner, most, agents, &mut wires, text);
    }
    let [one, two] = wires;
    tell_wire(rt, 0, &one, text);
    tell_wire(rt, 1, &two, text);
    drop(one);
    drop(two);
}

/// Makes the runs in a new hall, and tells what they came to.
fn told<R: Threads + Wait + Sync + Abort>(rt: &R, alloc: Global, row: Row<'_>) -> String {
    let mut text = String::new(alloc);
    let (limit, calls) = (row.limit.clamp(1, 100), row.calls.min(100));
    let mut stage = stage_of(rt, alloc, row.trace, limit, calls);
    run_all(rt, alloc, &stage.hall, &mut stage.runner, row, &mut text);
    tell_journal(rt, alloc, stage, &mut text);
    text
}

/// Makes the runs of each row, and compares what they came to.
fn play_all<R: Threads + Wait + Sync + Abort>(rt: &R, alloc: Global, rows: &[Row<'_>]) {
    for row in rows {
        let text = told(rt, alloc, *row);
        is_told(rt, &text, row.want);
        drop(text);
    }
}

#[test]
fn a_fault_is_noted_and_the_next_run_goes_on(rt: HostRuntime) {
    const FOUR_TEXT: &str = "\
WireFault { port: 0, sent: 1 } [0] 17
Ran { slot: 5, length: 3, count: 1 } [0] 15
Nothing [0] 14
0: (1, 0, 1)
0: (5, 0, 3)
Open(4) Opened(1, 4, 1)
Short(0, 1) Noted(1)
Close Closed(1)
Open(4) Opened(5, 3, 1)
Close Closed(5)
Open(4) NothingLeft
";
    const ONE_TEXT: &str = "\
Ran { slot: 1, length: 1, count: 1 } [0] 18
WireFault { port: 0, sent: 0 } [0] 15
Ran { slot: 3, length: 1, count: 1 } [0] 13
0: (1, 0, 1)
0: (3, 0, 1)
Open(1) Opened(1, 1, 1)
Close Closed(1)
Open(1) Opened(2, 1, 1)
Short(0, 0) Noted(0)
Close Closed(2)
Open(1) Opened(3, 1, 1)
Close Closed(3)
";
    const FIRST: Row<'static> = Row {
        trace: ONE,
        limit: 100,
        calls: 20,
        fail_at: [2, 0],
        agents: 2,
        most: &[4, 4, 4],
        want: FOUR_TEXT,
    };
    const ROWS: &[Row<'static>] = &[
        FIRST,
        Row {
            agents: 64,
            ..FIRST
        },
        Row { agents: 1, ..FIRST },
        Row {
            most: &[1, 1, 1],
            want: ONE_TEXT,
            ..FIRST
        },
    ];
    play_all(&rt, rt.alloc(), ROWS);
}

#[test]
fn each_short_port_is_noted(rt: HostRuntime) {
    const BOTH_TEXT: &str = "\
WireFault { port: 0, sent: 0 } [0, 3] 16
Open(1) Opened(1, 1, 2)
Short(0, 0) Noted(0)
Short(1, 0) Noted(0)
Close Closed(1)
";
    const SECOND_TEXT: &str = "\
WireFault { port: 1, sent: 0 } [0, 3] 17
0: (1, 0, 1)
Open(1) Opened(1, 1, 2)
Short(1, 0) Noted(0)
Close Closed(1)
";
    const LONGER_TEXT: &str = "\
WireFault { port: 0, sent: 2 } [0, 1] 16
Ran { slot: 4, length: 3, count: 2 } [0, 1] 14
Ran { slot: 7, length: 1, count: 1 } [1] 12
0: (1, 0, 2)
0: (4, 0, 3)
1: (4, 1, 3)
1: (7, 1, 1)
Open(3) Opened(1, 3, 2)
Short(0, 2) Noted(2)
Short(1, 0) Noted(0)
Close Closed(1)
Open(9) Opened(4, 3, 2)
Close Closed(4)
Open(9) Opened(7, 1, 1)
Close Closed(7)
";
    const FIRST: Row<'static> = Row {
        trace: CROSSED,
        limit: 100,
        calls: 20,
        fail_at: [1, 1],
        agents: 2,
        most: &[1],
        want: BOTH_TEXT,
    };
    const ROWS: &[Row<'static>] = &[
        FIRST,
        Row {
            fail_at: [0, 1],
            want: SECOND_TEXT,
            ..FIRST
        },
        Row {
            trace: APART,
            fail_at: [3, 1],
            most: &[3, 9, 9],
            want: LONGER_TEXT,
            ..FIRST
        },
    ];
    play_all(&rt, rt.alloc(), ROWS);
}

#[test]
fn a_wire_fails_at_the_first_unit_of_a_run_or_later(rt: HostRuntime) {
    const FIRST_TEXT: &str = "\
WireFault { port: 0, sent: 0 } [1] 17
Open(2199023255551) Opened(1, 1, 1)
Short(0, 0) Noted(0)
Close Closed(1)
";
    const SECOND_TEXT: &str = "\
Ran { slot: 1, length: 1, count: 1 } [1] 18
WireFault { port: 0, sent: 0 } [0] 15
0: (1, 1, 1)
Open(2199023255551) Opened(1, 1, 1)
Close Closed(1)
Open(2199023255551) Opened(2, 3, 1)
Short(0, 0) Noted(0)
Close Closed(2)
";
    const LAST_TEXT: &str = "\
Ran { slot: 1, length: 1, count: 1 } [1] 18
WireFault { port: 0, sent: 2 } [0] 15
0: (1, 1, 1)
0: (2, 0, 2)
Open(2199023255551) Opened(1, 1, 1)
Close Closed(1)
Open(2199023255551) Opened(2, 3, 1)
Short(0, 2) Noted(2)
Close Closed(2)
";
    const SINGLE: Row<'static> = Row {
        trace: SAME,
        limit: 100,
        calls: 20,
        fail_at: [1, 0],
        agents: 1,
        most: &[MAX_SLOT],
        want: FIRST_TEXT,
    };
    const DOUBLE: Row<'static> = Row {
        most: &[MAX_SLOT, MAX_SLOT],
        ..SINGLE
    };
    const ROWS: &[Row<'static>] = &[
        SINGLE,
        Row {
            fail_at: [2, 0],
            want: SECOND_TEXT,
            ..DOUBLE
        },
        Row {
            fail_at: [4, 0],
            want: LAST_TEXT,
            ..DOUBLE
        },
    ];
    play_all(&rt, rt.alloc(), ROWS);
}

#[test]
fn runs_go_on_until_nothing_is_left(rt: HostRuntime) {
    const SAME_TEXT: &str = "\
Ran { slot: 1, length: 1, count: 1 } [1] 18
Ran { slot: 2, length: 3, count: 1 } [0] 16
Nothing [0] 15
0: (1, 1, 1)
0: (2, 0, 3)
Open(2199023255551) Opened(1, 1, 1)
Close Closed(1)
Open(2199023255551) Opened(2, 3, 1)
Close Closed(2)
Open(2199023255551) NothingLeft
";
    const CROSSED_TEXT: &str = "\
Ran { slot: 1, length: 1, count: 2 } [0, 3] 18
Ran { slot: 2, length: 1, count: 2 } [1, 2] 16
Nothing [1, 2] 15
0: (1, 0, 1)
0: (2, 2, 1)
1: (1, 3, 1)
1: (2, 1, 1)
Open(2199023255551) Opened(1, 1, 2)
Close Closed(1)
Open(2199023255551) Opened(2, 1, 2)
Close Closed(2)
Open(2199023255551) NothingLeft
";
    const MOST: &[u64] = &[MAX_SLOT, MAX_SLOT, MAX_SLOT];
    const FIRST: Row<'static> = Row {
        trace: SAME,
        limit: 100,
        calls: 20,
        fail_at: [0, 0],
        agents: 4,
        most: MOST,
        want: SAME_TEXT,
    };
    const ROWS: &[Row<'static>] = &[
        FIRST,
        Row {
            trace: CROSSED,
            want: CROSSED_TEXT,
            ..FIRST
        },
    ];
    play_all(&rt, rt.alloc(), ROWS);
}

#[test]
fn answers_without_a_run_say_why(rt: HostRuntime) {
    const SPENT_TEXT: &str = "\
Ran { slot: 1, length: 1, count: 1 } [0] 3
Spent [0] 3
0: (1, 0, 1)
Open(1) Opened(1, 1, 1)
Close Closed(1)
";
    const FULL_TEXT: &str = "\
Ran { slot: 1, length: 1, count: 1 } [0] 18
Full(4) [0] 17
0: (1, 0, 1)
Open(1) Opened(1, 1, 1)
Close Closed(1)
";
    const LATE_TEXT: &str = "\
WireFault { port: 0, sent: 0 } [0] 17
Ran { slot: 1099511627777, length: 1099511627775, count: 1 } [0] 15
Late(2199023255552) [0] 14
0: (1099511627777, 0, 1099511627775)
Open(2199023255551) Opened(1, 1099511627776, 1)
Short(0, 0) Noted(0)
Close Closed(1)
Open(2199023255551) Opened(1099511627777, 1099511627775, 1)
Close Closed(1099511627777)
Open(2199023255551) Late(2199023255552)
";
    const FIRST: Row<'static> = Row {
        trace: ONE,
        limit: 100,
        calls: 5,
        fail_at: [0, 0],
        agents: 2,
        most: &[1, 1],
        want: SPENT_TEXT,
    };
    const ROWS: &[Row<'static>] = &[
        FIRST,
        Row {
            calls: 3,
            want: "Spent [] 3\nSpent [] 3\n",
            ..FIRST
        },
        Row {
            limit: 3,
            calls: 20,
            want: FULL_TEXT,
            ..FIRST
        },
        Row {
            limit: 2,
            calls: 20,
            want: "Full(2) [] 19\nFull(2) [] 18\n",
            ..FIRST
        },
        Row {
            trace: LONG,
            calls: 20,
            fail_at: [1, 0],
            most: &[MAX_SLOT, MAX_SLOT, MAX_SLOT],
            want: LATE_TEXT,
            ..FIRST
        },
    ];
    play_all(&rt, rt.alloc(), ROWS);
}

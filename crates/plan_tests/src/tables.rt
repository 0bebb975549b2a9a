//! Tables of flows.
use crate::table_inputs::{built, had, is_told};
use coflow_units::Flow;
use flow_table::Table;
use std::alloc::Global;
use std::process::Abort;

/// The fault of a trace, where a unit has so many megabytes, or its coflows and flows, as a copy of the table tells
/// them.
fn told(rt: &impl Abort, alloc: Global, trace: &str, unit: u64) -> String {
    match built(rt, alloc, trace, unit) {
        Ok(table) => shown_of_copy(rt, alloc, table),
        Err(fault) => had(rt, format!(in alloc; "{fault}")),
    }
}

/// What a copy of a table tells.
fn shown_of_copy(rt: &impl Abort, alloc: Global, table: Table) -> String {
    let copy = had(rt, table.copy(alloc));
    drop(table);
    let text = shown(rt, alloc, &copy);
    drop(copy);
    text
}

/// For each coflow its id, its arrival, and its flows with their ports and units.
fn shown(rt: &impl Abort, alloc: Global, table: &Table) -> String {
    let mut text = String::new(alloc);
    for coflow in 0..table.coflows() {
        let (id, arrival) = (table.id(coflow), table.arrival(coflow));
        tell_coflow(rt, &mut text, id, arrival, table.of_coflow(coflow));
    }
    text
}

/// Adds a coflow.
fn tell_coflow(rt: &impl Abort, text: &mut String, id: u32, arrival: u32, flows: &[Flow]) {
    had(rt, write!(text, "{id} {arrival}"));
    for flow in flows {
        tell_flow(rt, text, flow);
    }
    had(rt, text.push_str("; "));
}

/// Adds a flow with its ports and units.
fn tell_flow(rt: &impl Abort, text: &mut String, flow: &Flow) {
    let told = write!(text, ", {} {} {}", flow.ingress, flow.egress, flow.units);
    had(rt, told);
}

/// Tests what is told of a trace.
fn expect(rt: &impl Abort, alloc: Global, trace: &str, unit: u64, want: &str) {
    let have = told(rt, alloc, trace, unit);
    is_told(rt, &have, want);
    drop(have);
}

/// A trace, how many megabytes a unit has, and what is told.
type Row = (&'static str, u64, &'static str);

/// Tests the rows.
fn expect_all(rt: &impl Abort, alloc: Global, rows: &[Row]) {
    for (trace, unit, want) in rows {
        expect(rt, alloc, trace, *unit, want);
    }
}

/// Units are rounded up, and have a limit.
#[test]
fn units_of_megabytes(rt: HostRuntime) {
    const ROWS: &[Row] = &[
        ("1 1\n7 0 1 0 1 1:0.000001\n", 1, "7 0, 0 1 1; "),
        ("1 1\n7 0 1 0 1 1:1\n", 1, "7 0, 0 1 1; "),
        ("1 1\n7 0 1 0 1 1:1.000001\n", 1, "7 0, 0 1 2; "),
        ("1 1\n7 0 1 0 1 1:3\n", 2, "7 0, 0 1 2; "),
        ("1 1\n7 0 1 0 1 1:1048576\n", 1_048_576, "7 0, 0 1 1; "),
        (
            "1 1\n7 0 1 0 1 1:1048576.000001\n",
            1_048_576,
            "7 0, 0 1 2; ",
        ),
        (
            "1 1\n7 0 1 0 1 1:1099511627776\n",
            1,
            "7 0, 0 1 1099511627776; ",
        ),
        (
            "1 1\n7 0 1 0 2 1:1099511627776 0:1\n",
            2,
            "7 0, 0 0 1, 0 1 549755813888; ",
        ),
        (
            "1 1\n7 0 1 0 2 1:1099511627776 0:1\n",
            1,
            "Units of 1099511627777 are too many",
        ),
    ];
    expect_all(&rt, rt.alloc(), ROWS);
}

/// The first mappers send what is left over, a location that stands again sends again, each reducer is shared by
/// itself, what goes to one location is one flow, and where nothing is sent there is no flow. In all rows but the last
/// one a coflow stands before and behind one without units.
#[test]
fn mappers_share_units(rt: HostRuntime) {
    const ROWS: &[Row] = &[
        (
            "1 3\n3 5 2 0 1 1 1:1\n9 0 1 1 0\n4 8 2 0 1 1 1:1\n",
            1,
            "3 5, 0 1 1; 9 0; 4 8, 0 1 1; ",
        ),
        (
            "1 3\n3 5 2 1 0 1 1:1\n9 0 1 1 0\n4 8 2 1 0 1 1:1\n",
            1,
            "3 5, 1 1 1; 9 0; 4 8, 1 1 1; ",
        ),
        (
            "1 3\n3 5 1 1 1 0:1\n9 0 1 1 0\n4 8 1 1 1 0:1\n",
            1,
            "3 5, 1 0 1; 9 0; 4 8, 1 0 1; ",
        ),
        (
            "1 3\n3 5 2 0 0 1 1:4\n9 0 1 1 0\n4 8 2 0 0 1 1:4\n",
            1,
            "3 5, 0 1 4; 9 0; 4 8, 0 1 4; ",
        ),
        (
            "1 3\n3 5 3 1 0 1 1 0:2\n9 0 1 1 0\n4 8 3 1 0 1 1 0:2\n",
            1,
            "3 5, 0 0 1, 1 0 1; 9 0; 4 8, 0 0 1, 1 0 1; ",
        ),
        (
            "1 3\n3 5 2 0 1 2 0:1 0:1\n9 0 1 1 0\n4 8 2 0 1 2 0:1 0:1\n",
            1,
            "3 5, 0 0 2; 9 0; 4 8, 0 0 2; ",
        ),
        (
            "1 3\n3 5 5 0 1 0 1 0 3 0:1 0:3 0:7\n9 0 1 1 0\n4 8 5 0 1 0 1 0 3 0:1 0:3 0:7\n",
            1,
            "3 5, 0 0 7, 1 0 4; 9 0; 4 8, 0 0 7, 1 0 4; ",
        ),
        (
            "1 3\n3 5 3 1 0 1 4 1:1 1:2 1:5 1:2\n9 0 1 1 0\n4 8 3 1 0 1 4 1:1 1:2 1:5 1:2\n",
            1,
            "3 5, 0 1 4, 1 1 6; 9 0; 4 8, 0 1 4, 1 1 6; ",
        ),
        (
            "1 3\n3 5 1 0 1 1:0\n9 0 1 1 0\n4 8 1 0 1 1:0\n",
            1,
            "3 5; 9 0; 4 8; ",
        ),
        (
            "1 3\n3 5 1 1 0\n9 0 1 1 0\n4 8 1 1 0\n",
            1,
            "3 5; 9 0; 4 8; ",
        ),
        (
            "150 3\n1 0 2 20 38 1 93:1.0\n2 120 1 7 2 93:4.5 7:2\n3 250 3 20 64 110 2 38:6.25 93:1\n",
            1,
            "1 0, 20 93 1; 2 120, 7 7 2, 7 93 5; 3 250, 20 38 3, 20 93 1, 64 38 2, 110 38 2; ",
        ),
    ];
    expect_all(&rt, rt.alloc(), ROWS);
}

/// A trace in which from each of 1024 locations goes one unit to each of them, and what is said of a second coflow.
fn crowded(rt: &impl Abort, alloc: Global, second: &str) -> String {
    let mut trace = String::new(alloc);
    crowd(rt, &mut trace, "1024 2\n1 0 1024", "");
    crowd(rt, &mut trace, " 1024", ":1024");
    had(rt, write!(trace, "\n{second}\n"));
    trace
}

/// Adds a text, and 1024 locations, each with what follows it.
fn crowd(rt: &impl Abort, trace: &mut String, before: &str, behind: &str) {
    had(rt, trace.push_str(before));
    for location in 0..1024 {
        had(rt, write!(trace, " {location}{behind}"));
    }
}

/// Tests as many flows as there may be.
fn are_crowded(rt: &impl Abort, flows: &[Flow]) {
    assert!(rt; flows.len() == 1 << 20);
    let second = Flow {
        coflow: 0,
        ingress: 1,
        egress: 0,
        units: 1,
    };
    assert!(rt; flows[1024] == second);
}

/// As many flows as there may be, where the second coflow has none, and one too many.
#[test]
fn flows_have_a_limit(rt: HostRuntime) {
    let most = crowded(&rt, rt.alloc(), "2 0 1 0 0");
    let table = had(&rt, built(&rt, rt.alloc(), &most, 1));
    drop(most);
    are_crowded(&rt, table.flows());
    drop(table);
    let more = crowded(&rt, rt.alloc(), "2 0 1 0 1 1024:1");
    let fault = "Flows of 1048577 are too many";
    expect(&rt, rt.alloc(), &more, 1, fault);
    drop(more);
}

//! Texts of traces.
use crate::rows::{had, is_told};
use crate::tables::{Kind, try_rows};
use coflow_units::{CoflowLine, MAX_TEXT, Trace};
use std::alloc::Global;
use std::process::Abort;
use trace_reader::read_trace;

/// Adds what a trace says of a coflow: its id, its arrival, its mappers, and for each reducer the location and the
/// millionths.
fn tell_coflow(rt: &impl Abort, text: &mut String, coflow: &CoflowLine) {
    had(rt, write!(text, "; {} {},", coflow.id, coflow.arrival));
    for mapper in coflow.mappers.as_slice() {
        had(rt, write!(text, " {mapper}"));
    }
    had(rt, text.push_str(","));
    for reducer in coflow.reducers.as_slice() {
        let (location, millionths) = (reducer.location, reducer.millionths);
        had(rt, write!(text, " {location}:{millionths}"));
    }
}

/// The ports and the coflows of a trace.
fn told(rt: &impl Abort, alloc: Global, trace: &Trace) -> String {
    let mut text = had(rt, format!(in alloc; "{}", trace.number));
    for coflow in trace.coflows.as_slice() {
        tell_coflow(rt, &mut text, coflow);
    }
    text
}

/// The ports and the coflows that a text says, or its first fault.
pub(crate) fn trace_told(rt: &impl Abort, alloc: Global, bytes: &[u8]) -> String {
    assert!(rt; bytes.len() <= MAX_TEXT);
    match read_trace(alloc, bytes) {
        Ok(trace) => told(rt, alloc, &trace),
        Err(fault) => had(rt, format!(in alloc; "{fault}")),
    }
}

/// Texts and what they say. A `/` stands for a line end.
const VALUES: &str = "2 0 => 2
1 1/7 0 2 0 1 1 1:1/ => 1; 7 0, 0 1, 1:1000000
2 2/1 0 1 0 1 1:3/2 9 1 0 1 1:1/ => 2; 1 0, 0, 1:3000000; 2 9, 0, 1:1000000
1 1/5 3 1 1 0/ => 1; 5 3, 1,
1 1/1 0 1 0 1 1:0.0000001 => 1; 1 0, 0, 1:1
1 1/1 0 1 0 1 1:3.9999999 => 1; 1 0, 0, 1:4000000
1 1/1 0 1 1 2 0:0 0:0 => 1; 1 0, 1, 0:0 0:0
150 1\r/2 120 1 7 2 93:4.5 7:2\r/ => 150; 2 120, 7, 93:4500000 7:2000000
\r/\t / 002\t01\r//\r/\t0004  00012 01 2 002 0:1.50 02:0000.000001\r\r// / => 2; 4 12, 2, 0:1500000 2:1
1024 1/4294967295 4294967295 1 1024 1 1024:1099511627776 => 1024; 4294967295 4294967295, 1024, 1024:1099511627776000000
1 1/1 0 1 0 1 0:1099511627775.9999999 => 1; 1 0, 0, 0:1099511627776000000
1 1/1 0 1 0 1 1:01.00 => 1; 1 0, 0, 1:1000000
1 1/1\r0 1 0 1 1:1 => 1; 1 0, 0, 1:1000000
1 1/1 0 1 0 1 1:3.0000000000000000000000000000001 => 1; 1 0, 0, 1:3000001";

/// Texts and their first faults.
const FAULTS: &str = " => bad header
/ \r/\t => bad header
2 => bad header
2 x => bad header
+2 1 => bad header
1 1 1 => bad header
0 1 => line 1: Ports of 0 out of range
1025 0 => line 1: Ports of 1025 out of range
//1025 4097 => line 3: Ports of 1025 out of range
1024 4096 => have 0 lines, want 4096
1 4097 => line 1: Coflows of 4097 out of range
1 99999999999999999999 => line 1: Coflows of 18446744073709551615 out of range
1 1/\x00 0 1 0 1 1:1 => line 2 field 1
1 1/1\x0b0 1 0 1 1:1 => line 2 field 1
1 1/1 => line 2 field 2
1 1/1 -1 1 0 1 1:1 => line 2 field 2
1 1/1 0 => line 2 field 3
1 1/1 0 1 => line 2 field 4
1 1/1 0 4096 0 => line 2 field 5
3 1/1 0 2 0/ => line 2 field 5
1 1/1 0 1 0 => line 2 field 5
1 1/1 0 1 0 1:1 => line 2 field 5
1 1/1 0 1 0 1 => line 2 field 6
1 1/1 0 1 0 4096 => line 2 field 6
1 1/1 0 1 0 1 1 => line 2 field 6
1 1/1 0 1 0 1 :1 => line 2 field 6
1 1/1 0 1 0 1 1: => line 2 field 6
1 1/1 0 1 0 1 1:1:1 => line 2 field 6
1 1/1 0 1 0 1 1:1. => line 2 field 6
1 1/1 0 1 0 1 1:1.0E-5 => line 2 field 6
1 1/1 0 1 0 1 2:x => line 2 field 6
1 1/1 0 1 0 0 1:1 => line 2 field 6
1 1/1 0 1 0 2 1:1 1:1\x0c => line 2 field 7
1 1/1 0 1 0 1 1:1 9 => line 2 field 7
1 1/4294967296 x => line 2: Id of 4294967296 out of range
1 1/99999999999999999999 0 1 0 1 1:1 => line 2: Id of 18446744073709551615 out of range
1 1/1 4294967296 => line 2: Arrival of 4294967296 out of range
1 1/1 0 0 1 1:1 => line 2: Mappers of 0 out of range
1 1/1 0 4097 => line 2: Mappers of 4097 out of range
1 1/1 0 1 2 1 0:1 => line 2 port 2 out of range
1 1/1 0 2 0 18446744073709551616 => line 2 port 18446744073709551615 out of range
1 1/1 0 1 0 4097 => line 2: Reducers of 4097 out of range
1 1/1 0 1 0 1 2:1099511627777 => line 2 port 2 out of range
1 1/1 0 1 0 1 1:1099511627777 => line 2: Megabytes of 1099511627777 out of range
1 1/1 0 1 0 1 1:1099511627776.000001 => line 2: Megabytes of 1099511627777 out of range
1 1/1 0 1 0 1 1:99999999999999999999 => line 2: Megabytes of 18446744073709551615 out of range
1 0/1 => extra line 2
1 1/1 0 1 0 0//\r/x => extra line 5
1 1 => have 0 lines, want 1
3 3/1 0 1 0 1 1:1/2 0 1 0 1 1:1/ => have 2 lines, want 3
2 2/1 0 1 0 1 1:3/1 0 1 0 1 1:1/ => line 3 repeats id 1
2 2/1 0 1 0 1 1:3//01 x => line 4 repeats id 1
1 2/1 0 1 0 0/1 0 1 0 0/3 => line 3 repeats id 1
1 2/1 0 1 0 0/2 x/3 => line 3 field 2";

#[test]
fn texts_of_traces(rt: HostRuntime) {
    try_rows(&rt, rt.alloc(), Kind::Traces, VALUES);
    try_rows(&rt, rt.alloc(), Kind::Traces, FAULTS);
    let have = trace_told(&rt, rt.alloc(), b"1 1\n\xff 0 1 0 1 1:1");
    is_told(&rt, "bytes that are no UTF-8", &have, "line 2 field 1");
}

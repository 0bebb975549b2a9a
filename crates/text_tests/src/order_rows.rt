//! Texts of orders, for a trace with the coflows 7 and 3.
use crate::rows::{had, is_told};
use crate::tables::{Kind, try_rows};
use coflow_units::MAX_TEXT;
use flow_table::Table;
use orders::read_order;
use std::alloc::Global;
use std::process::Abort;
use trace_reader::read_trace;

const TWO_COFLOWS: &[u8] = b"1 2\n7 0 1 0 0\n3 0 1 0 0\n";

const NO_COFLOWS: &[u8] = b"1 0\n";

/// The order of the coflows 7 and 3 that a text gives, or its first fault.
pub(crate) fn order_told(rt: &impl Abort, alloc: Global, bytes: &[u8]) -> String {
    order_over(rt, alloc, TWO_COFLOWS, bytes)
}

/// The order of the coflows of a trace that a text gives, or its first fault.
fn order_over(rt: &impl Abort, alloc: Global, trace: &[u8], bytes: &[u8]) -> String {
    assert!(rt; bytes.len() <= MAX_TEXT);
    let table = table_of(rt, alloc, trace);
    match read_order(alloc, bytes, &table) {
        Ok(order) => told(rt, alloc, order.as_slice()),
        Err(fault) => had(rt, format!(in alloc; "{fault}")),
    }
}

/// The table of a trace.
fn table_of(rt: &impl Abort, alloc: Global, bytes: &[u8]) -> Table {
    assert!(rt; bytes.len() <= MAX_TEXT);
    let Ok(trace) = read_trace(alloc, bytes) else {
        panic!(rt; "no memory");
    };
    had(rt, Table::build(alloc, &trace, 1))
}

/// Numbers of coflows, one behind another.
fn told(rt: &impl Abort, alloc: Global, order: &[u32]) -> String {
    let mut text = had(rt, String::from_str(alloc, "order"));
    for coflow in order {
        had(rt, write!(text, " {coflow}"));
    }
    text
}

/// Texts, and their orders or first faults. A `/` stands for a line end. Coflow 7 has the number 0, and coflow 3 the
/// number 1.
const ROWS: &str = "7/3 => order 0 1
3/7/ => order 1 0
/ \t3//\r/\t7 /  => order 1 0
7\r/3\r/ => order 0 1
003/0000000000000000000000000000007 => order 1 0
x => line 1: field 1 is not as it should be
+7 => line 1: field 1 is not as it should be
7.0 => line 1: field 1 is not as it should be
7,3 => line 1: field 1 is not as it should be
7/-3 => line 2: field 1 is not as it should be
7/3 \x0b => line 2: field 2 is not as it should be
7/3\x0b => line 2: field 1 is not as it should be
7 3 => line 1: field 2 is not as it should be
7//3 7 x => line 3: field 2 is not as it should be
0 => line 1: no coflow has the id 0
7/1 => line 2: no coflow has the id 1
9 x => line 1: no coflow has the id 9
4294967295 => line 1: no coflow has the id 4294967295
4294967303 => line 1: no coflow has the id 4294967303
18446744073709551615 => line 1: no coflow has the id 18446744073709551615
18446744073709551623 => line 1: no coflow has the id 18446744073709551615
7/7 => line 2: an earlier line has the id 7
7/3/7 => line 3: an earlier line has the id 7
3//003 x => line 3: an earlier line has the id 3
 => have 0 lines, want 2
/ \r/\t/ => have 0 lines, want 2
7 => have 1 lines, want 2
//3/ => have 1 lines, want 2";

#[test]
fn orders_and_first_faults(rt: HostRuntime) {
    try_rows(&rt, rt.alloc(), Kind::Orders, ROWS);
}

#[test]
fn no_coflows_have_the_empty_order(rt: HostRuntime) {
    let empty = order_over(&rt, rt.alloc(), NO_COFLOWS, b"");
    is_told(&rt, "no line", &empty, "order");
    let blank = order_over(&rt, rt.alloc(), NO_COFLOWS, b"\n \t\r\n");
    is_told(&rt, "blank lines", &blank, "order");
    let long = order_over(&rt, rt.alloc(), NO_COFLOWS, b"7\n");
    is_told(&rt, "a line", &long, "line 1: no coflow has the id 7");
}

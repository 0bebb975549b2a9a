//! Texts of weights, for a trace with the coflows 1 and 2.
use crate::rows::had;
use crate::tables::{Kind, try_rows};
use coflow_units::MAX_TEXT;
use std::alloc::Global;
use std::process::Abort;
use trace_reader::read_trace;
use weights::read_weights;

const TWO_COFLOWS: &[u8] = b"1 2\n1 0 1 0 0\n2 0 1 0 0\n";

/// The weights that a text gives, or its first fault.
pub(crate) fn weights_told(rt: &impl Abort, alloc: Global, bytes: &[u8]) -> String {
    assert!(rt; bytes.len() <= MAX_TEXT);
    let trace = had(rt, read_trace(alloc, TWO_COFLOWS));
    match read_weights(alloc, bytes, &trace) {
        Ok(weights) => told(rt, alloc, weights.as_slice()),
        Err(fault) => had(rt, format!(in alloc; "{fault}")),
    }
}

/// Weights, one behind another.
fn told(rt: &impl Abort, alloc: Global, weights: &[u64]) -> String {
    let mut text = had(rt, String::from_str(alloc, "weights"));
    for weight in weights {
        had(rt, write!(text, " {weight}"));
    }
    text
}

/// Texts, and their weights or first faults. A `/` stands for a line end.
const ROWS: &str = " => weights 1 1
/ \r/\t/ => weights 1 1
1 5/2 1/ => weights 5 1
2 1/1 5 => weights 5 1
2 7/ => weights 1 7
/\t01\t0005 \r// => weights 5 1
1 4294967296 => weights 4294967296 1
1 1/2 00000000000000000000000000002 => weights 1 2
x 1 => line 1: field 1 is not as it should be
+1 1 => line 1: field 1 is not as it should be
1:1 => line 1: field 1 is not as it should be
9 1 => line 1: no coflow has the id 9
9 x y => line 1: no coflow has the id 9
4294967297 1 => line 1: no coflow has the id 4294967297
99999999999999999999 1 => line 1: no coflow has the id 18446744073709551615
1 2/1 3 => line 2: an earlier line has the id 1
2 2//002 => line 3: an earlier line has the id 2
1 => line 1: field 2 is not as it should be
1 2.0 => line 1: field 2 is not as it should be
1 2/2 \x0b => line 2: field 2 is not as it should be
1 0 => line 1: Weight of 0 is outside its range
/1 4294967297 3 => line 2: Weight of 4294967297 is outside its range
1 99999999999999999999 => line 1: Weight of 18446744073709551615 is outside its range
1 2 3 => line 1: field 3 is not as it should be
1 2/2 2 x/9 1 => line 2: field 3 is not as it should be";

#[test]
fn weights_and_first_faults(rt: HostRuntime) {
    try_rows(&rt, rt.alloc(), Kind::Weights, ROWS);
}

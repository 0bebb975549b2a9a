//! Tables of texts of one kind, and what is told of each.
use crate::numbers::{decimal_told, number_told};
use crate::order_rows::order_told;
use crate::rows::{is_told, parts_of};
use crate::scripts::script_told;
use crate::traces::trace_told;
use crate::weight_lists::weights_told;
use std::alloc::Global;
use std::process::Abort;

/// What the texts of a table are of.
#[derive(Clone, Copy)]
pub(crate) enum Kind {
    Numbers,
    Decimals,
    Traces,
    Weights,
    Orders,
    Scripts,
}

/// What is told of a text.
fn answer(rt: &impl Abort, alloc: Global, kind: Kind, text: &[u8]) -> String {
    match kind {
        Kind::Numbers => number_told(rt, alloc, text),
        Kind::Decimals => decimal_told(rt, alloc, text),
        Kind::Traces => trace_told(rt, alloc, text),
        Kind::Weights => weights_told(rt, alloc, text),
        Kind::Orders => order_told(rt, alloc, text),
        Kind::Scripts => script_told(rt, alloc, text),
    }
}

/// Stops where a row has another answer.
fn try_row(rt: &impl Abort, alloc: Global, kind: Kind, row: &str) {
    let (text, want) = parts_of(rt, alloc, row);
    let have = answer(rt, alloc, kind, text.as_bytes());
    is_told(rt, row, &have, want);
}

/// Stops where one of the rows has another answer.
pub(crate) fn try_rows(rt: &impl Abort, alloc: Global, kind: Kind, rows: &str) {
    for row in rows.split('\n') {
        try_row(rt, alloc, kind, row);
    }
}

//! What tests begin with. A test that finds no memory stops at once.
use coflow_units::{MAX_UNIT, UnitSize};
use flow_table::Table;
use std::alloc::Global;
use std::fmt::Debug;
use std::process::Abort;
use test_support::{TextFault, table_of_text};

/// The value of an answer.
pub(crate) fn had<T, E: Debug + Drop>(rt: &impl Abort, answer: Result<T, E>) -> T {
    match answer {
        Ok(value) => value,
        Err(fault) => panic!(rt; "{fault:?}"),
    }
}

/// The flows of a trace, where a unit has so many megabytes, or the fault.
pub(crate) fn built(
    rt: &impl Abort,
    alloc: Global,
    trace: &str,
    unit: u64,
) -> Result<Table, TextFault> {
    assert!(rt; unit >= 1);
    assert!(rt; unit <= MAX_UNIT);
    table_of_text(alloc, trace.as_bytes(), UnitSize { megabytes: unit })
}

/// Stops where another text is told.
pub(crate) fn is_told(rt: &impl Abort, have: &str, want: &str) {
    if have != want {
        panic!(rt; "{have} is told in place of {want}");
    }
}

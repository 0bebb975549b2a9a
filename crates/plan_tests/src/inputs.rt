//! What tests begin with. A test that finds no memory stops at once.
ghost use Rattle.std.specs.Prelude.{◌≡◌, ◌≤◌, All, IsTrue, Ok};
ghost use Rattle.coflow_units.specs.declared.limits.TheConstants.{MAX_WEIGHT};

use coflow_units::{MAX_UNIT, MAX_WEIGHT, UnitSize};
use flow_table::Table;
use std::alloc::Global;
use std::fmt::Debug;
use std::process::Abort;
use test_support::table_of_text;

/// Two coflows that share both ports, of 3 units and of 1 unit.
pub(crate) const TWO: &str = "2 2\n1 0 1 0 1 1:3\n2 0 1 0 1 1:1\n";

/// Three coflows among 151 ports.
pub(crate) const THREE: &str =
    "150 3\n1 0 2 20 38 1 93:1.0\n2 120 1 7 2 93:4.5 7:2\n3 250 3 20 64 110 2 38:6.25 93:1\n";

/// The value of an answer.
pub(crate) fn had<T, E: Debug + Drop>(rt: &impl Abort, answer: Result<T, E>) -> T
    ensures { answer ≡ Ok result }
{
    match answer {
        Ok(value) => value,
        Err(fault) => panic!(rt; "{fault:?}"),
    }
}

/// The flows of a trace, where a unit has so many megabytes.
pub(crate) fn table_of(rt: &impl Abort, alloc: Global, trace: &str, unit: u64) -> Table {
    assert!(rt; unit >= 1);
    assert!(rt; unit <= MAX_UNIT);
    let size = UnitSize { megabytes: unit };
    had(rt, table_of_text(alloc, trace.as_bytes(), size))
}

/// Stops where another text is told.
pub(crate) fn is_told(rt: &impl Abort, have: &str, want: &str) {
    if have != want {
        panic!(rt; "{have} is told in place of {want}");
    }
}

/// Tests what calls require of weights.
pub(crate) fn are_weights(weights: &[u64]) -> bool
    ensures { IsTrue result → All (λ w. w ≤ MAX_WEIGHT) weights.now }
{
    weights.iter().all(|weight| *weight <= MAX_WEIGHT)
}

//! The units of reducers.
ghost use Rattle.std.specs.Prelude.{◌≡◌, ◌-◌, ◌≤◌, ◌^◌, min};
ghost use Rattle.flow_table.specs.Units.{units_in_all, units_of_line, units_of_reducer};

use coflow_units::{CoflowLine, Reducer, Trace, UnitSize};

const MILLIONTHS: u64 = 1_000_000;

/// The units of a reducer, rounded up, where a unit is so large.
pub(crate) fn units_of_reducer(reducer: &Reducer, unit: UnitSize) -> u64
    ensures { result ≡ units_of_reducer unit.megabytes reducer.now }
{
    reducer.millionths.div_ceil(unit.megabytes * MILLIONTHS)
}

/// The units of all coflows, or the greatest number where there are more.
pub(crate) fn units_in_all(trace: &Trace, unit: UnitSize) -> u64
    ensures { result ≡ min (units_in_all trace.now unit.megabytes) (2 ^ 64 - 1) }
{
    let mut total = 0u64;
    for line in trace.coflows.as_slice() {
        total = total.saturating_add(units_of_line(line, unit));
    }
    total
}

/// The units of all reducers of a coflow, or the greatest number where there are more.
fn units_of_line(line: &CoflowLine, unit: UnitSize) -> u64
    ensures { result ≡ min (units_of_line unit.megabytes line.now) (2 ^ 64 - 1) }
{
    let mut total = 0u64;
    for reducer in line.reducers.as_slice() {
        total = total.saturating_add(units_of_reducer(reducer, unit));
    }
    total
}

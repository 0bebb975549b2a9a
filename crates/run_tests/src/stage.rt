//! Halls of two ports, in which all coflows joined and were ordered.
ghost use Rattle.std.specs.Prelude.{◌≡◌, ◌≤◌, IfSome};
ghost use Rattle.client_session.specs.Models.{IsSessionOf};
ghost use Rattle.slot_runner.specs.Models.{MayRun};

use coflow_units::UnitSize;
use flow_table::Table;
use std::alloc::Global;
use std::process::Abort;
use std::sync::Wait;
use test_support::{SmallRun, table_of_text};

/// The table of a trace with two ports, where a unit has one megabyte.
fn table_of(alloc: Global, trace: &str) -> Option<Table>
    ensures ports { IfSome result (λ t. t.ports ≡ 2) }
{
    match table_of_text(alloc, trace.as_bytes(), UnitSize::MEGABYTE) {
        Ok(table) if table.ports() == 2 => Some(table),
        _ => None,
    }
}

/// A hall of the trace's coflows. Its runner may run.
pub(crate) fn stage_of<R: Wait + Abort>(
    rt: &R,
    alloc: Global,
    trace: &str,
    limit: u32,
    calls: u32,
) -> SmallRun
    requires limit { (1 ≤ limit) × (limit ≤ 100) }
    requires calls { calls ≤ 100 }
    ensures may { MayRun result.hall result.runner }
    ensures session { IsSessionOf result.hall result.session }
    ensures ports { result.hall.setting.opening.table.ports ≡ 2 }
{
    let Some(table) = table_of(alloc, trace) else {
        panic!(rt; "no table");
    };
    match SmallRun::of_table(rt, alloc, table, limit, calls) {
        Ok(small) => small,
        Err(_) => panic!(rt; "no memory"),
    }
}

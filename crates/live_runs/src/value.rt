//! The value that `live` prints of a closed journal, and of a run that was served.
ghost use Rattle.coflow_units.specs.Schedule.{IsRuns};
ghost use Rattle.journal.specs.Closed.{schedule_of};
ghost use Rattle.journal.specs.Journal.{version_of};
ghost use Rattle.journal.specs.declared.command.Entry.{Entry};
ghost use Rattle.live_model.specs.Printed.{told_entry, run_of, told_order};
ghost use Rattle.live_runs.specs.Value.{IsValueOf};
ghost use Rattle.std.specs.List.{range_with_len};
ghost use Rattle.std.specs.Option.{IsSome};
ghost use Rattle.std.specs.Prelude.{◌≡◌, All, IfOk, Some, map};

use crate::entries::entry_lines;
use crate::retelling::{Retold, retold_of};
use coflow_units::{Items, NoMemory};
use live_serving::Served;
use live_text::{Live, PullLine};
use master_core::Master;
use std::alloc::Global;

/// What is printed of a run that was served, whose master began with these weights and this limit. The error is want of
/// memory.
pub(crate) fn value_of(
    alloc: Global,
    served: Served,
    weights: Items<u64>,
    limit: u32,
) -> Result<Live, NoMemory>
    requires words { All (λ (e : Entry). IsSome (told_entry served.master.opening e)) served.master.journal }
    requires weights { weights ≡ served.master.opening.weights }
    requires limit { limit ≡ served.master.opening.limit }
    ensures { IfOk result (IsValueOf served.master.opening served.master.journal served.pulls) }
{
    let Served { master, pulls } = served;
    let value = live_value(alloc, &master, weights, limit, pulls);
    drop(master);
    value
}

/// The same weights. The error is want of memory.
pub(crate) fn copy_of(alloc: Global, weights: &Items<u64>) -> Result<Items<u64>, NoMemory>
    ensures { IfOk result (λ copy. copy ≡ weights.now) }
{
    let copy = Vec::from_slice(alloc, weights.as_slice())?;
    Ok(Items::from_vec(copy))
}

/// What is printed of a closed journal, and of these pulls: its entries, each by its words; the orders of all versions
/// from 1 on, by their ids; the pulls as they are; and the schedule as runs of equal slots. The master began with these
/// weights and this limit.
///
/// There are words for each entry: nothing is noted, no slot is skipped, and no reply is one that a driver gets of a
/// fault. The error is want of memory.
pub fn live_value(
    alloc: Global,
    closed: &Master,
    weights: Items<u64>,
    limit: u32,
    pulls: Items<PullLine>,
) -> Result<Live, NoMemory>
    requires words { All (λ (e : Entry). IsSome (told_entry closed.now.opening e)) closed.now.journal }
    requires weights { weights ≡ closed.now.opening.weights }
    requires limit { limit ≡ closed.now.opening.limit }
    ensures entries { IfOk result
        (λ live. map (told_entry closed.now.opening) closed.now.journal ≡ map Some live.entries) }
    ensures orders { IfOk result (λ live. live.orders
        ≡ map (told_order closed.now.opening closed.now.journal) (range_with_len 1 (version_of closed.now.journal))) }
    ensures pulls { IfOk result (λ live. live.pulls ≡ pulls) }
    ensures runs { IfOk result
        (λ live. IsRuns (schedule_of closed.now.opening closed.now.journal) (map run_of live.runs)) }
{
    let entries = entry_lines(alloc, closed)?;
    let Retold { orders, schedule } = retold_of(alloc, closed, weights, limit)?;
    Ok(Live {
        entries: Items::from_vec(entries),
        orders: Items::from_vec(orders),
        pulls,
        runs: schedule.into_runs(),
    })
}

//! The orders of a master by their ids.
ghost use Rattle.std.specs.Prelude.{◌≡◌, ◌<◌, ◌∷◌, ◌++◌, [], All, IfOk, List, OnOk, length, map};
ghost use Rattle.std.specs.List.{slice_index_or};
ghost use Rattle.coflow_units.specs.declared.plan.Place.{Place};
ghost use Rattle.journal.specs.declared.command.Entry.{Entry};
ghost use Rattle.master_core.specs.Published.{ranked};
ghost use Rattle.live_runs.specs.Retold.{TellOrders};

use coflow_units::{Items, NoMemory, Place};
use flow_table::Table;
use journal::Reply;
use journal_audit::is_version;
use master_core::Master;
use std::alloc::Global;

/// Adds the newest order by its ids, where a master that gave this reply has just made it. The error is want of memory.
pub(crate) fn push_newest(
    alloc: Global,
    master: &Master,
    orders: &mut Vec<Items<u32>>,
    reply: Reply,
) -> Result<(), NoMemory>
    ensures { OnOk result ((before : List Entry) (e : Entry) → master.now.journal ≡ before ++ e ∷ [] → e.reply ≡ reply →
        TellOrders master.now.opening before orders.old.items →
        TellOrders master.now.opening master.now.journal orders.new.items) }
{
    if is_version(reply) {
        let ids = ids_of(alloc, master.table(), master.places())?;
        orders.push(Items::from_vec(ids))?;
    }
    Ok(())
}

/// The ids of the coflows that have these places. The error is want of memory.
fn ids_of(alloc: Global, table: &Table, places: &[Place]) -> Result<Vec<u32>, NoMemory>
    requires coflow { All (λ (x : Place). x.coflow < length table.now.ids) places.now }
    ensures { IfOk result (λ ids. ids.items ≡ map (λ c. slice_index_or table.now.ids c 0) (ranked places.now)) }
{
    let mut ids = Vec::with_capacity(alloc, places.len())?;
    for place in places {
        ids.push_reserved(table.id(place.coflow));
    }
    Ok(ids)
}

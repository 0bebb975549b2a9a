//! The ranks of the coflows in the orders of a master.
ghost use Rattle.std.specs.Prelude.{◌≡◌, ◌≤◌, true, ◌∷◌, ◌++◌, [], ℕ, IfOk, List, OnOk, length, nat_eq};
ghost use Rattle.indexmap.specs.IndexMap.{get};
ghost use Rattle.coflow_units.specs.declared.limits.TheConstants.{MAX_COFLOWS};
ghost use Rattle.journal.specs.declared.command.Entry.{Entry};
ghost use Rattle.journal.specs.Journal.{is_version};
ghost use Rattle.journal.specs.Line.{rank_in};
ghost use Rattle.master_core.specs.Published.{ranked};
ghost use Rattle.journal_audit.specs.Ranks.{AreRanks, told};

use crate::answering::is_version;
use coflow_units::{NoMemory, Place};
use indexmap::IndexMap;
use journal::Reply;
use master_core::Master;
use std::alloc::Global;

/// Adds to the tables of ranks, one for each version, that of the newest version, where the master has just made it by
/// this reply. The error is want of memory.
pub fn rank_newest(
    alloc: Global,
    master: &Master,
    ranks: &mut Vec<IndexMap<u32, u32>>,
    reply: Reply,
) -> Result<(), NoMemory>
    requires few { length master.now.opening.table.ids ≤ MAX_COFLOWS }
    ensures { OnOk result ((before : List Entry) (e : Entry) → master.now.journal ≡ before ++ e ∷ [] → e.reply ≡ reply →
        AreRanks (get nat_eq) master.now.opening before ranks.old.items →
        AreRanks (get nat_eq) master.now.opening master.now.journal ranks.new.items) }
{
    if is_version(reply) {
        ranks.push(ranks_of(alloc, master.places())?)?;
    }
    Ok(())
}

/// The rank of each coflow that has a place, counted from 1. The error is want of memory.
fn ranks_of(alloc: Global, places: &[Place]) -> Result<IndexMap<u32, u32>, NoMemory>
    requires few { length places.now ≤ MAX_COFLOWS }
    ensures { IfOk result (λ ranks. (coflow : ℕ) →
        told (get nat_eq ranks coflow) ≡ rank_in (ranked places.now) coflow) }
{
    let mut ranks = IndexMap::new(alloc);
    for index in 0..places.len() {
        let coflow = places[index].coflow;
        ranks.entry(coflow)?.or_insert(index as u32 + 1);
    }
    Ok(ranks)
}

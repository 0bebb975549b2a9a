//! The audit of a printed journal.
ghost use Rattle.std.specs.Prelude.{◌≡◌, ◌≤◌, ℕ, [], All, IfOk, List, MatchOption, length, map, max, nat_eq};
ghost use Rattle.indexmap.specs.IndexMap.{get};
ghost use Rattle.coflow_units.specs.declared.limits.TheConstants.{MAX_COFLOWS, MAX_WEIGHT};
ghost use Rattle.flow_table.specs.Table.{TableFacts};
ghost use Rattle.live_text.specs.declared.value.EntryLine.{EntryLine};
ghost use Rattle.live_text.specs.Live.{IsLive};
ghost use Rattle.journal_audit.specs.Ids.{Finds};
ghost use Rattle.journal_audit.specs.Reasons.{IsAudit};
ghost use Rattle.journal_audit.specs.Replayed.{IsReplayed};
ghost use Rattle.journal_audit.specs.Stated.{IsKnown, command_for, opening_for, stated_by};

use crate::ids::coflows_by_id;
use crate::parts::slots_in;
use crate::reasons::late_reason;
use crate::replay::{Replayed, replay};
use crate::stated::{Stated, commands_of};
use crate::verdict::{Audit, AuditReason};
use coflow_units::{Items, NoMemory};
use flow_table::Table;
use indexmap::IndexMap;
use journal::Command;
use live_text::Live;
use master_core::Master;
use std::alloc::Global;

/// Whether a printed journal is right for the table and the opening weights, one for each coflow, from 1 to 2^32; or
/// the first reason why it is not.
///
/// The ids of its entries are looked up, a master with this table and these weights answers its commands one after
/// another, and all that the text says is held against the answers: the replies, the orders, what pulls were told, and
/// the slots of the runs that were closed, each with all flows that its run grants. The journal of the master takes as
/// many entries as the text has, or 1 where it has none. What is said of callers is not looked at: neither who asked
/// what, nor when. The error is want of memory.
pub fn audit(
    alloc: Global,
    table: Table,
    weights: Items<u64>,
    live: &Live,
) -> Result<Audit, NoMemory>
    requires each_weight { length weights ≡ length table.ids }
    requires weight { All (λ w. (1 ≤ w) × (w ≤ MAX_WEIGHT)) weights }
    requires live { IsLive live.now }
    ensures audit { IfOk result (IsAudit table weights live.now) }
{
    let Ok(coflows) = coflows_by_id(alloc, &table) else {
        drop(table);
        drop(weights);
        return Err(NoMemory);
    };
    let audited = audit_entries(alloc, table, weights, live, &coflows);
    drop(coflows);
    audited
}

/// The same, where the coflows are looked up by their ids.
fn audit_entries(
    alloc: Global,
    table: Table,
    weights: Items<u64>,
    live: &Live,
    coflows: &IndexMap<u32, u32>,
) -> Result<Audit, NoMemory>
    requires each_weight { length weights ≡ length table.ids }
    requires weight { All (λ w. (1 ≤ w) × (w ≤ MAX_WEIGHT)) weights }
    requires live { IsLive live.now }
    requires coflows { Finds table.ids (get nat_eq coflows.now) }
    ensures { IfOk result (IsAudit table weights live.now) }
{
    let Ok(stated) = commands_of(alloc, coflows, live.entries.as_slice()) else {
        drop(table);
        drop(weights);
        return Err(NoMemory);
    };
    match stated {
        Stated::Commands(commands) => {
            let audited = audit_commands(alloc, table, weights, live, coflows, &commands);
            drop(commands);
            audited
        }
        Stated::Unknown(position) => {
            drop(table);
            drop(weights);
            Ok(Audit::No(AuditReason::NoId { position }))
        }
    }
}

/// The same, where the ids of the entries are coflows' and these are their commands.
fn audit_commands(
    alloc: Global,
    table: Table,
    weights: Items<u64>,
    live: &Live,
    coflows: &IndexMap<u32, u32>,
    commands: &[Command],
) -> Result<Audit, NoMemory>
    requires each_weight { length weights ≡ length table.ids }
    requires weight { All (λ w. (1 ≤ w) × (w ≤ MAX_WEIGHT)) weights }
    requires live { IsLive live.now }
    requires coflows { Finds table.ids (get nat_eq coflows.now) }
    requires commands { commands.now ≡ map (λ (e : EntryLine). command_for table.ids e.word) live.now.entries }
    requires known { All (λ (e : EntryLine). IsKnown table.ids e.word) live.now.entries }
    ensures { IfOk result (IsAudit table weights live.now) }
{
    let limit = (live.entries.as_slice().len() as u32).max(1);
    let mut master = Master::new(alloc, table, weights, limit)?;
    let audited = audit_by_master(alloc, &mut master, live, coflows, commands);
    drop(master);
    audited
}

/// The same, by a master without entries that begins with the opening.
fn audit_by_master(
    alloc: Global,
    master: &mut Master,
    live: &Live,
    coflows: &IndexMap<u32, u32>,
    commands: &[Command],
) -> Result<Audit, NoMemory>
    requires empty { master.old.journal ≡ [] }
    requires limit { master.old.opening.limit ≡ max (length live.now.entries) 1 }
    requires live { IsLive live.now }
    requires coflows { Finds master.old.opening.table.ids (get nat_eq coflows.now) }
    requires commands { commands.now
        ≡ map (λ (e : EntryLine). command_for master.old.opening.table.ids e.word) live.now.entries }
    requires known { All (λ (e : EntryLine). IsKnown master.old.opening.table.ids e.word) live.now.entries }
    ensures { (t : TableFacts) (weights : List ℕ) → master.old.opening ≡ opening_for t weights live.now →
        IfOk result (IsAudit t weights live.now) }
{
    let _coflows = master.table().coflows();
    let mut replayed = Replayed::new(alloc);
    let audited = audit_replay(alloc, master, &mut replayed, live, coflows, commands);
    drop(replayed);
    audited
}

/// The same, where nothing is taken down yet.
fn audit_replay(
    alloc: Global,
    master: &mut Master,
    replayed: &mut Replayed,
    live: &Live,
    coflows: &IndexMap<u32, u32>,
    commands: &[Command],
) -> Result<Audit, NoMemory>
    requires few { length master.old.opening.table.ids ≤ MAX_COFLOWS }
    requires empty { master.old.journal ≡ [] }
    requires limit { master.old.opening.limit ≡ max (length live.now.entries) 1 }
    requires live { IsLive live.now }
    requires coflows { Finds master.old.opening.table.ids (get nat_eq coflows.now) }
    requires commands { commands.now
        ≡ map (λ (e : EntryLine). command_for master.old.opening.table.ids e.word) live.now.entries }
    requires known { All (λ (e : EntryLine). IsKnown master.old.opening.table.ids e.word) live.now.entries }
    requires nothing { IsReplayed master.old.opening [] live.now.orders replayed.old }
    ensures { (t : TableFacts) (weights : List ℕ) → master.old.opening ≡ opening_for t weights live.now →
        IfOk result (IsAudit t weights live.now) }
{
    let entries = live.entries.as_slice();
    let orders = live.orders.as_slice();
    match replay(alloc, master, replayed, commands, entries, orders)? {
        Some(wrong) => Ok(Audit::No(AuditReason::NoEntry {
            position: wrong.position,
            stated: wrong.stated,
            real: wrong.real,
        })),
        None => verdict_of(alloc, master, replayed, coflows, live),
    }
}

/// The verdict where the master answered all entries as stated. The error is want of memory.
fn verdict_of(
    alloc: Global,
    master: &Master,
    replayed: &Replayed,
    coflows: &IndexMap<u32, u32>,
    live: &Live,
) -> Result<Audit, NoMemory>
    requires live { IsLive live.now }
    requires coflows { Finds master.now.opening.table.ids (get nat_eq coflows.now) }
    requires known { All (λ (e : EntryLine). IsKnown master.now.opening.table.ids e.word) live.now.entries }
    requires journal { master.now.journal ≡ stated_by master.now.opening.table.ids live.now.entries }
    requires replayed { IsReplayed master.now.opening master.now.journal live.now.orders replayed.now }
    ensures { (t : TableFacts) (weights : List ℕ) → master.now.opening ≡ opening_for t weights live.now →
        IfOk result (IsAudit t weights live.now) }
{
    match late_reason(alloc, master, replayed, coflows, live)? {
        Some(reason) => Ok(Audit::No(reason)),
        None => Ok(Audit::Yes {
            entries: live.entries.as_slice().len() as u32,
            versions: live.orders.as_slice().len() as u32,
            slots: slots_in(&live.runs),
        }),
    }
}

//! The reasons that are left where a master answered all entries as stated.
ghost use Rattle.std.specs.Prelude.{◌≡◌, ◌<◌, ◌^◌, All, IfOk, MatchOption, length, nat_eq};
ghost use Rattle.indexmap.specs.IndexMap.{get};
ghost use Rattle.live_text.specs.declared.value.EntryLine.{EntryLine};
ghost use Rattle.live_text.specs.Live.{IsLive};
ghost use Rattle.journal_audit.specs.Orders.{AreOrders, orders_of};
ghost use Rattle.journal_audit.specs.Parted.{IsFirstWrongOrder};
ghost use Rattle.journal_audit.specs.Ids.{Finds};
ghost use Rattle.journal_audit.specs.Reasons.{IsFirstReasonFor};
ghost use Rattle.journal_audit.specs.Replayed.{IsReplayed};
ghost use Rattle.journal_audit.specs.Sound.{IsRightFor};
ghost use Rattle.journal_audit.specs.Stated.{IsKnown, stated_by};

use crate::orders::WrongOrder;
use crate::parts::first_parted_slot;
use crate::pulls::{wrong_rank, wrong_version};
use crate::replay::Replayed;
use crate::verdict::AuditReason;
use coflow_units::{Items, NoMemory};
use indexmap::IndexMap;
use live_text::Live;
use master_core::Master;
use std::alloc::Global;

/// The first reason where the master answered all entries as stated: a run that is open at the end, an order, a rank, a
/// version of a pull, or a slot. None where all is right.
pub(crate) fn late_reason(
    alloc: Global,
    master: &Master,
    replayed: &Replayed,
    coflows: &IndexMap<u32, u32>,
    live: &Live,
) -> Result<Option<AuditReason>, NoMemory>
    requires live { IsLive live.now }
    requires coflows { Finds master.now.opening.table.ids (get nat_eq coflows.now) }
    requires known { All (λ (e : EntryLine). IsKnown master.now.opening.table.ids e.word) live.now.entries }
    requires journal { master.now.journal ≡ stated_by master.now.opening.table.ids live.now.entries }
    requires replayed { IsReplayed master.now.opening master.now.journal live.now.orders replayed.now }
    ensures { IfOk result (λ found. MatchOption found (IsRightFor master.now.opening master.now.journal live.now)
        (IsFirstReasonFor master.now.opening master.now.journal live.now)) }
{
    if master.open_slots().is_some() {
        return Ok(Some(AuditReason::NoClose {
            slot: master.next_slot(),
        }));
    }
    let orders = live.orders.as_slice();
    if let Some(wrong) = wrong_order(master, replayed.wrong, orders) {
        return Ok(Some(AuditReason::NoOrder {
            version: wrong.version,
            place: wrong.place,
        }));
    }
    let pulls = live.pulls.as_slice();
    if let Some(wrong) = wrong_rank(coflows, &replayed.ranks, pulls) {
        return Ok(Some(AuditReason::NoPull {
            client: wrong.client,
            line: wrong.line,
            stated: wrong.stated,
            real: wrong.real,
        }));
    }
    let newest = master.version();
    if let Some(wrong) = wrong_version(coflows, newest, pulls) {
        return Ok(Some(AuditReason::NoVersion {
            client: wrong.client,
            line: wrong.line,
        }));
    }
    let Some(slot) = first_parted_slot(alloc, &live.runs, replayed.schedule.runs())? else {
        return Ok(None);
    };
    Ok(Some(AuditReason::NoRun { slot }))
}

/// The first wrong order, where this is the first one of those that the master made: it, or the first stated one that
/// the master has not.
fn wrong_order(
    master: &Master,
    wrong: Option<WrongOrder>,
    orders: &[Items<u32>],
) -> Option<WrongOrder>
    requires few { length orders.now < 2 ^ 32 }
    requires made { AreOrders master.now.opening master.now.journal orders.now wrong }
    ensures { MatchOption result (orders.now ≡ orders_of master.now.opening master.now.journal)
        (λ w. IsFirstWrongOrder orders.now (orders_of master.now.opening master.now.journal) w.version w.place) }
{
    if wrong.is_some() {
        return wrong;
    }
    let versions = master.version();
    if orders.len() > versions as usize {
        return Some(WrongOrder {
            version: versions + 1,
            place: 1,
        });
    }
    None
}

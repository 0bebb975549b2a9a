//! The orders of a printed journal beside those of the master.
ghost use Rattle.std.specs.Prelude.{◌≡◌, ◌≢◌, ◌≤◌, true, ◌<◌, ◌-◌, ℕ, All, List, [], ◌∷◌, ◌++◌, MatchOption, length, map, slice_index};
ghost use Rattle.std.specs.List.{slice_index_or};
ghost use Rattle.coflow_units.specs.declared.limits.TheConstants.{MAX_COFLOWS};
ghost use Rattle.coflow_units.specs.declared.plan.Place.{Place};
ghost use Rattle.journal.specs.declared.command.Entry.{Entry};
ghost use Rattle.journal.specs.Journal.{is_version, version_of};
ghost use Rattle.master_core.specs.Published.{ranked};
ghost use Rattle.journal_audit.specs.Orders.{AreOrders, HasOrder, order_ids};
ghost use Rattle.journal_audit.specs.Parted.{IsFirstPlace};

use crate::answering::is_version;
use coflow_units::{Items, Place};
use flow_table::Table;
use journal::Reply;
use master_core::Master;

/// An order that is not the master's: its version, and the first place at which the two part, both counted from 1.
#[derive(Clone, Copy)]
pub struct WrongOrder {
    pub version: u32,
    pub place: u32,
}

/// The first of the stated orders that is not the master's, up to the newest version, after the master gave this reply;
/// or none. `wrong` is what was found so far, before the reply.
pub fn wrong_order_after(
    master: &Master,
    orders: &[Items<u32>],
    wrong: Option<WrongOrder>,
    reply: Reply,
) -> Option<WrongOrder>
    requires few { length master.now.opening.table.ids ≤ MAX_COFLOWS }
    requires made { is_version reply ≡ true → 1 ≤ version_of master.now.journal }
    ensures { (before : List Entry) (e : Entry) → master.now.journal ≡ before ++ e ∷ [] → e.reply ≡ reply →
        AreOrders master.now.opening before orders.now wrong →
        AreOrders master.now.opening master.now.journal orders.now result }
{
    if wrong.is_some() {
        return wrong;
    }
    if !is_version(reply) {
        return None;
    }
    wrong_newest(master, orders, master.version())
}

/// Whether the order of this version, the newest one, is not the stated one.
fn wrong_newest(master: &Master, orders: &[Items<u32>], version: u32) -> Option<WrongOrder>
    requires some { 1 ≤ version }
    requires newest { version ≡ version_of master.now.journal }
    requires few { length master.now.opening.table.ids ≤ MAX_COFLOWS }
    ensures { MatchOption result (HasOrder master.now.opening master.now.journal orders.now (version - 1))
        (λ w. (w.version ≡ version)
        × (HasOrder master.now.opening master.now.journal orders.now (version - 1) → ⊥)
        × IsFirstPlace (slice_index_or orders.now (version - 1) [])
        (order_ids master.now.opening master.now.journal version) w.place) }
{
    let index = version as usize - 1;
    if index >= orders.len() {
        return Some(WrongOrder { version, place: 1 });
    }
    let Some(place) = parted_place(orders[index].as_slice(), master.places(), master.table()) else {
        return None;
    };
    Some(WrongOrder { version, place })
}

/// The first place, counted from 1, at which an order of ids and one of coflows part. None where they are the same.
fn parted_place(ids: &[u32], places: &[Place], table: &Table) -> Option<u32>
    requires few { length places.now ≤ MAX_COFLOWS }
    requires coflow { All (λ (x : Place). x.coflow < length table.now.ids) places.now }
    ensures { MatchOption result (ids.now ≡ map (λ c. slice_index table.now.ids c) (ranked places.now))
        (λ place. (ids.now ≢ map (λ c. slice_index table.now.ids c) (ranked places.now))
        × IsFirstPlace ids.now (map (λ c. slice_index table.now.ids c) (ranked places.now)) place) }
{
    let few = ids.len().min(places.len());
    for index in 0..few {
        if ids[index] != table.id(places[index].coflow) {
            return Some(index as u32 + 1);
        }
    }
    if ids.len() == places.len() {
        return None;
    }
    Some(few as u32 + 1)
}

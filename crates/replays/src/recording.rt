//! What is recorded of a replay.
ghost use Rattle.std.specs.Prelude.{◌≡◌, ℕ, ◌+◌, ◌<◌, ◌≤◌, [], Some, true, All, Contains, IfOk, IfSome, OnOk, is_some};
ghost use Rattle.std.specs.Prelude.{length, map};
ghost use Rattle.std.specs.List.{slice_index_or};
ghost use Rattle.std.specs.List.Sorted.{IsStrictlyIncreasing};
ghost use Rattle.coflow_units.specs.declared.limits.TheConstants.{MAX_SLOT, MAX_WEIGHT};
ghost use Rattle.coflow_units.specs.declared.plan.Place.{Place};
ghost use Rattle.coflow_units.specs.Certificate.{front};
ghost use Rattle.coflow_units.specs.Flows.{Instance};
ghost use Rattle.port_load.specs.LoadTable.{IsSameSize};
ghost use Rattle.bssi_order.specs.Order.{IsOrder, entries_of};
ghost use Rattle.master_core.specs.Published.{IsLeft};
ghost use Rattle.online_text.specs.declared.value.OnlinePlace.{OnlinePlace};
ghost use Rattle.online_runs.specs.Value.{place_line};
ghost use Rattle.replays.specs.Recorded.{charge_of};
ghost use Rattle.replays.specs.Recording.{BothRecorded, HasRoomFor, IsOrderRecorded, IsRunRecorded, IsWhatIsLeft};
ghost use Rattle.replays.specs.Recording.{MayRecord};

use crate::progress::Progress;
use bssi_order::Bssi;
use coflow_units::{Items, NoMemory, Place, Port, Side};
use flow_table::Table;
use online_runs::bound_of;
use online_text::{Epoch, OnlinePlace};
use port_load::Loads;
use schedule_model::Schedule;
use std::alloc::Global;

/// The orders that were published, and the schedule. Beside them what an order takes: the weights, a table of loads,
/// room for the order by bottleneck, select, scale, iterate, and for each coflow what the newest of these orders
/// charges for it.
#[derive(Drop)]
pub(crate) struct Recording {
    pub(crate) weights: Vec<u64>,
    pub(crate) loads: Loads,
    pub(crate) ordering: Bssi,
    pub(crate) charges: Vec<OnlinePlace>,
    pub(crate) epochs: Vec<Epoch>,
    pub(crate) schedule: Schedule,
}

impl Recording {
    /// Nothing is recorded yet, of a table with these weights. The error is want of memory.
    pub(crate) fn empty(
        alloc: Global,
        table: &Table,
        weights: &[u64],
    ) -> Result<Recording, NoMemory>
        ensures room { IfOk result (HasRoomFor table.now weights.now) }
        ensures epochs { IfOk result (λ r. r.epochs.items ≡ []) }
        ensures schedule { IfOk result (λ r. r.schedule ≡ []) }
    {
        let weights = Vec::from_slice(alloc, weights)?;
        let loads = Loads::of(alloc, &[], table.coflows(), table.ports())?;
        let ordering = Bssi::with_room(alloc, table.coflows(), table.ports())?;
        let nothing = OnlinePlace {
            id: 0,
            port: Port {
                side: Side::Ingress,
                number: 0,
            },
            y: 0,
        };
        let charges = vec![in alloc; nothing; table.coflows() as usize]?;
        Ok(Recording {
            weights,
            loads,
            ordering,
            charges,
            epochs: Vec::new(alloc),
            schedule: Schedule::new(alloc),
        })
    }

    /// Records that the order of this line was published, where this was the progress and these coflows were present.
    /// The error is want of memory.
    fn publish(
        &mut self,
        alloc: Global,
        table: &Table,
        progress: &Progress,
        present: &[bool],
        line: &[u32],
    ) -> Result<(), NoMemory>
        requires may { MayRecord table.now progress.now.left.items present.now line.now self.old }
        ensures { OnOk result (IsOrderRecorded table.now progress.now present.now line.now self.old self.new) }
    {
        self.order(table, &progress.left, present);
        let places = self.ordering.places();
        fill_charges(&mut self.charges, table, places);
        let bound = bound_of(
            alloc,
            table,
            &mut self.loads,
            places,
            &progress.left,
            present,
        )?;
        let charged = charges_of(alloc, &self.charges, line)?;
        self.epochs.push(Epoch {
            time: progress.time,
            places: Items::from_vec(charged),
            bound,
        })?;
        Ok(())
    }

    /// Orders the coflows that are present, where the flows of the table have so many units left.
    fn order(&mut self, table: &Table, left: &[u64], present: &[bool])
        requires room { HasRoomFor table.now self.old.weights.items self.old }
        requires left { IsWhatIsLeft table.now self.old.weights.items left.now present.now }
        ensures order { (i : Instance) →
            IsLeft i table.now.flows left.now self.old.weights.items present.now table.now.ports →
            IsOrder i self.new.ordering.places }
        ensures room { HasRoomFor table.now self.old.weights.items self.new }
        ensures charges { self.new.charges ≡ self.old.charges }
        ensures epochs { self.new.epochs ≡ self.old.epochs }
        ensures schedule { self.new.schedule ≡ self.old.schedule }
    {
        self.loads
            .fill_by_coflow(table.flows(), table.starts(), left, present);
        self.ordering.run(&mut self.loads, &self.weights, present);
    }
}

/// Records an order, where something is recorded. The error is want of memory.
pub(crate) fn record_order(
    recording: &mut Option<Recording>,
    alloc: Global,
    table: &Table,
    progress: &Progress,
    present: &[bool],
    line: &[u32],
) -> Result<(), NoMemory>
    requires may { IfSome recording.old (MayRecord table.now progress.now.left.items present.now line.now) }
    ensures { OnOk result (BothRecorded recording.old recording.new
        (IsOrderRecorded table.now progress.now present.now line.now)) }
{
    match recording {
        Some(recording) => recording.publish(alloc, table, progress, present, line),
        None => Ok(()),
    }
}

/// Records so many slots, one at least, with these flows, where something is recorded. The error is want of memory.
pub(crate) fn record_run(
    recording: &mut Option<Recording>,
    slots: u64,
    flows: &[u32],
) -> Result<(), NoMemory>
    requires some { 1 ≤ slots }
    requires ascending { IsStrictlyIncreasing flows.now }
    requires short { IfSome recording.old (λ r. length r.schedule + slots ≤ MAX_SLOT) }
    ensures { OnOk result (BothRecorded recording.old recording.new (IsRunRecorded slots flows.now)) }
{
    match recording {
        Some(recording) => recording.schedule.push_run(slots, flows),
        None => Ok(()),
    }
}

/// Writes for the coflow of each place what the place charges.
fn fill_charges(charges: &mut [OnlinePlace], table: &Table, places: &[Place])
    requires each { length charges.old ≡ length table.now.ids }
    requires within { All (λ (x : Place). x.coflow < length table.now.ids) places.now }
    ensures { (coflow : ℕ) (none : OnlinePlace) → Contains (front (entries_of places.now)) coflow →
        slice_index_or charges.new coflow none
        ≡ place_line table.now.ids (charge_of (entries_of places.now) coflow) }
{
    for place in places {
        charges[place.coflow as usize] = OnlinePlace {
            id: table.id(place.coflow),
            port: place.port,
            y: place.y,
        };
    }
}

/// What is charged for each coflow of a line, in its order. The error is want of memory.
fn charges_of(
    alloc: Global,
    charges: &[OnlinePlace],
    line: &[u32],
) -> Result<Vec<OnlinePlace>, NoMemory>
    requires { All (λ c. c < length charges.now) line.now }
    ensures { (none : OnlinePlace) →
        IfOk result (λ charged. charged.items ≡ map (λ c. slice_index_or charges.now c none) line.now) }
{
    let mut charged = Vec::with_capacity(alloc, line.len())?;
    for coflow in line {
        charged.push(charges[*coflow as usize])?;
    }
    Ok(charged)
}

/// What was recorded.
pub(crate) fn recorded(recording: Option<Recording>) -> Recording
    requires { is_some recording ≡ true }
    ensures { recording ≡ Some result }
{
    match recording {
        Some(recording) => recording,
        None => unreachable!(),
    }
}

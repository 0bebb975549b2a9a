//! The newest order, and the places that it gives.
ghost use Rattle.std.specs.Prelude.{◌≡◌, ℕ, ◌+◌, ◌^◌, ◌<◌, ◌≤◌, List, [], All, IfOk, length, slice_index, sum};
ghost use Rattle.coflow_units.specs.declared.limits.TheConstants.{MAX_COFLOWS, MAX_PORTS, MAX_UNITS, MAX_WEIGHT};
ghost use Rattle.coflow_units.specs.declared.plan.Place.{Place};
ghost use Rattle.coflow_units.specs.Flows.{Instance, IsDistinct};
ghost use Rattle.coflow_units.specs.Starts.{IsStarts};
ghost use Rattle.port_load.specs.LoadTable.{IsWithin};
ghost use Rattle.bssi_order.specs.Order.{IsOrder};
ghost use Rattle.journal.specs.Line.{rank_in};
ghost use Rattle.master_core.specs.Published.{IsLeft, ranked};

use bssi_order::Bssi;
use coflow_units::{Flow, NoMemory, Place};
use port_load::Loads;
use std::alloc::Global;
use std::marker::Model;

/// The newest order with its version, and the room to make the next one.
///
/// Contracts see `Orders` as the version, its places from place 1 on, and the numbers of coflows and ports that there
/// is room for.
#[derive(Drop)]
pub struct Orders {
    bssi: Bssi,
    loads: Loads,
    /// For each coflow its place in the newest order, counted from 1, or 0.
    ranks: Vec<u32>,
    version: u32,
}

impl Model for Orders {
    ghost use Rattle.master_core.specs.Published.{IsPublished, Published};

    ghost Value = { Published };

    ghost view = { λ s. record {
      version = s.version;
      places = s.bssi.places;
      coflows = s.loads.coflows;
      ports = s.loads.ports;
    } };

    ghost invariant = { λ s. IsPublished s.bssi.places s.ranks.items s.loads.coflows s.loads.ports s.bssi.room
        s.loads.coflows s.loads.ports };
}

impl Orders {
    /// Takes the room for orders of so many coflows, whose flows use so many ports on each side. Nothing is published:
    /// the version is 0, and its order is empty.
    pub fn new(alloc: Global, coflows: u32, ports: u32) -> Result<Orders, NoMemory>
        requires coflows_limit { coflows ≤ MAX_COFLOWS }
        requires has_ports { 1 ≤ ports }
        requires ports_limit { ports ≤ MAX_PORTS + 1 }
        ensures version { IfOk result (λ r. r.version ≡ 0) }
        ensures places { IfOk result (λ r. r.places ≡ []) }
        ensures coflows_are { IfOk result (λ r. r.coflows ≡ coflows) }
        ensures ports_are { IfOk result (λ r. r.ports ≡ ports) }
    {
        let ranks = vec![in alloc; 0; coflows as usize]?;
        let Ok(bssi) = Bssi::with_room(alloc, coflows, ports) else {
            drop(ranks);
            return Err(NoMemory);
        };
        let Ok(loads) = Loads::of(alloc, &[], coflows, ports) else {
            drop(ranks);
            drop(bssi);
            return Err(NoMemory);
        };
        Ok(Orders {
            bssi,
            loads,
            ranks,
            version: 0,
        })
    }

    /// Makes the next version: the coflows that are present are ordered by the units that their flows have left, with
    /// one weight and one mark for each coflow. The flows stand coflow by coflow, those of each from its start on.
    pub fn publish(
        &mut self,
        flows: &[Flow],
        starts: &[u32],
        left: &[u64],
        weights: &[u64],
        present: &[bool],
    )
        requires version_fits { self.old.version + 1 < 2 ^ 32 }
        requires within { IsWithin flows.now self.old.coflows self.old.ports }
        requires starts { IsStarts flows.now starts.now }
        requires starts_len { length starts.now ≡ self.old.coflows + 1 }
        requires left_len { length left.now ≡ length flows.now }
        requires weights_len { length weights.now ≡ self.old.coflows }
        requires present_len { length present.now ≡ self.old.coflows }
        requires weights_fit { All (λ w. w ≤ MAX_WEIGHT) weights.now }
        requires units { sum left.now ≤ MAX_UNITS }
        ensures version { self.new.version ≡ self.old.version + 1 }
        ensures order { (i : Instance) → IsLeft i flows.now left.now weights.now present.now self.old.ports →
            IsOrder i self.new.places }
        ensures coflows_are { self.new.coflows ≡ self.old.coflows }
        ensures ports_are { self.new.ports ≡ self.old.ports }
    {
        self.loads.fill_by_coflow(flows, starts, left, present);
        self.bssi.run(&mut self.loads, weights, present);
        rank_places(&mut self.ranks, self.bssi.places());
        self.version += 1;
    }

    /// The newest version; 0 before the first publishing.
    pub fn version(&self) -> u32
        ensures { result ≡ self.now.version }
    {
        self.version
    }

    /// The places of the newest version, from place 1 on. No coflow has two.
    pub fn places(&self) -> &[Place]
        ensures places { result.now ≡ self.now.places }
        ensures few { length self.now.places ≤ self.now.coflows }
        ensures once { IsDistinct (ranked self.now.places) }
        ensures coflow { All (λ (x : Place). x.coflow < self.now.coflows) self.now.places }
    {
        self.bssi.places()
    }

    /// The place of a coflow in the newest version, counted from 1, or 0 where it has none.
    pub fn rank(&self, coflow: u32) -> u32
        requires { coflow < self.now.coflows }
        ensures { result ≡ rank_in (ranked self.now.places) coflow }
    {
        self.ranks[coflow as usize]
    }

    /// For each coflow its place in the newest version, counted from 1, or 0 where it has none.
    pub fn ranks(&self) -> &[u32]
        ensures len { length result.now ≡ self.now.coflows }
        ensures rank { (coflow : ℕ) → coflow < self.now.coflows →
            slice_index result.now coflow ≡ rank_in (ranked self.now.places) coflow }
    {
        &self.ranks
    }
}

/// Gives each coflow its place, counted from 1, and 0 to those without one.
fn rank_places(ranks: &mut [u32], places: &[Place])
    requires few { length places.now ≤ MAX_COFLOWS }
    requires once { IsDistinct (ranked places.now) }
    requires coflow { All (λ (x : Place). x.coflow < length ranks.old) places.now }
    ensures { (coflow : ℕ) → coflow < length ranks.old →
        slice_index ranks.new coflow ≡ rank_in (ranked places.now) coflow }
{
    ranks.fill(0);
    for number in 0..places.len() {
        ranks[places[number].coflow as usize] = number as u32 + 1;
    }
}

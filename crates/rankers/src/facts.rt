//! What rankers are told.
ghost use Rattle.std.specs.Prelude.{◌≡◌, ◌-◌, ◌^◌, ◌<◌, ◌≤◌, ℕ, true, if◌then◌else◌, All, IfOk, OnOk, length, map, slice_index, sum};
ghost use Rattle.std.specs.List.{slice_index_or};
ghost use Rattle.coflow_units.specs.declared.fabric.Port.{Port};
ghost use Rattle.coflow_units.specs.declared.limits.TheConstants.{MAX_UNITS, MAX_WEIGHT};
ghost use Rattle.flow_table.specs.Table.{IsTable};
ghost use Rattle.coflow_units.specs.declared.plan.Place.{Place};
ghost use Rattle.coflow_units.specs.Flows.{coflow_of};
ghost use Rattle.port_load.specs.LoadTable.{HasLoads, is_present, load_at};
ghost use Rattle.port_load.specs.Bottleneck.{IsBottleneck};
ghost use Rattle.rankers.specs.FactsTold.{IsBssiOrder, IsFacts, IsFactsOf, coflows_in, with_left};
ghost use Rattle.rankers.specs.Kinds.{ratio_in};

use crate::by_key::key_in;
use crate::order::{coflows_of, loads_of, order_of};
use bssi_order::Bssi;
use coflow_units::{NoMemory, Place, Port};
use flow_table::Table;
use port_load::{Loads, bottleneck};
use std::alloc::Global;
use std::marker::Model;

/// The parts of a ratio of 1: 2^64.
const PARTS: u128 = 18_446_744_073_709_551_616;
/// The ratio of a coflow of weight 0, above that of each coflow that has a weight: 2^105.
const NO_RATIO: u128 = 40_564_819_207_303_340_847_894_502_572_032;

/// What is known of the coflows of a table: their weights, arrivals and loads, and their order by bottleneck, select,
/// scale, iterate. Coflows have the numbers from 0 on.
#[derive(Drop)]
pub struct Facts {
    weights: Vec<u64>,
    /// In milliseconds, each below 2^32.
    arrivals: Vec<u64>,
    bottlenecks: Vec<u64>,
    loads: Loads,
    order: Vec<u32>,
}

impl Model for Facts {
    ghost use Rattle.rankers.specs.FactsTold.{FactsTold, IsFacts, cells_of};

    ghost Value = { FactsTold };

    ghost view = { λ s. record {
      weights = s.weights.items;
      arrivals = s.arrivals.items;
      bottlenecks = s.bottlenecks.items;
      loads = cells_of s.loads;
      order = s.order.items;
    } };

    ghost invariant = { λ s. IsFacts record {
      weights = s.weights.items;
      arrivals = s.arrivals.items;
      bottlenecks = s.bottlenecks.items;
      loads = cells_of s.loads;
      order = s.order.items;
    } };
}

impl Facts {
    /// The facts of the coflows of a table, with the weight of each coflow, at most 2^32. The error is want of memory.
    pub fn of(alloc: Global, table: &Table, weights: &[u64]) -> Result<Facts, NoMemory>
        requires count { length weights.now ≡ length table.now.ids }
        requires weights { All (λ w. w ≤ MAX_WEIGHT) weights.now }
        ensures { IfOk result (λ facts. IsFactsOf table.now weights.now facts) }
    {
        let order = order_in(alloc, table, weights)?;
        let arrivals = arrivals_of(alloc, table)?;
        let weights = Vec::from_slice(alloc, weights)?;
        let (loads, bottlenecks) = measured(alloc, table)?;
        Ok(Facts {
            weights,
            arrivals,
            bottlenecks,
            loads,
            order,
        })
    }

    /// The facts anew, where the flows of a table have so many units left and these coflows are present: the loads of
    /// the others are 0, and weights and arrivals stay. `everyone` has the mark `true` for each coflow, and `ordering`
    /// has room for all of them.
    pub fn refill(
        &mut self,
        table: &Table,
        left: &[u64],
        present: &[bool],
        everyone: &[bool],
        ordering: &mut Bssi,
    )
        requires coflows { coflows_in self.old ≡ length table.now.ids }
        requires ports { self.old.loads.ports ≡ table.now.ports }
        requires each_left { length left.now ≡ length table.now.flows }
        requires units { sum left.now ≤ MAX_UNITS }
        requires each_present { length present.now ≡ length table.now.ids }
        requires each_mark { length everyone.now ≡ length table.now.ids }
        requires marked { All (λ mark. mark ≡ true) everyone.now }
        requires room { length table.now.ids ≤ ordering.old.room }
        requires arrivals { self.old.arrivals ≡ table.now.arrivals }
        ensures facts { (present_left : ℕ → ℕ) → ((f : ℕ) → f < length table.now.flows → present_left f ≡
            (if is_present present.now (coflow_of table.now.flows f) then slice_index left.now f else 0)) →
            IsFactsOf (with_left table.now present_left) self.old.weights self.new }
        ensures room { ordering.new.room ≡ ordering.old.room }
    {
        self.loads
            .fill_by_coflow(table.flows(), table.starts(), left, present);
        ordering.run(&mut self.loads, &self.weights, everyone);
        copy_coflows(ordering.places(), &mut self.order);
        self.loads
            .fill_by_coflow(table.flows(), table.starts(), left, present);
        fill_bottlenecks(&self.loads, &mut self.bottlenecks);
    }

    /// The number of coflows.
    pub fn coflows(&self) -> u32
        ensures coflows { result ≡ coflows_in self.now }
        ensures facts { IsFacts self.now }
    {
        self.loads.coflows()
    }

    /// The weight of a coflow.
    pub fn weight(&self, coflow: u32) -> u64
        requires { coflow < coflows_in self.now }
        ensures { result ≡ slice_index_or self.now.weights coflow 0 }
    {
        self.weights[coflow as usize]
    }

    /// The arrival of a coflow, in milliseconds.
    pub fn arrival(&self, coflow: u32) -> u32
        requires { coflow < coflows_in self.now }
        ensures { result ≡ slice_index_or self.now.arrivals coflow 0 }
    {
        self.arrivals[coflow as usize] as u32
    }

    /// The load of a coflow on a port, in units.
    pub fn load(&self, coflow: u32, port: Port) -> u64
        requires coflow { coflow < coflows_in self.now }
        requires port { port.number < self.now.loads.ports }
        ensures { result ≡ load_at self.now.loads coflow port }
    {
        self.loads.get(coflow, port)
    }

    /// The greatest load of a coflow on a port, in units.
    pub fn bottleneck(&self, coflow: u32) -> u64
        requires { coflow < coflows_in self.now }
        ensures bottleneck { result ≡ slice_index_or self.now.bottlenecks coflow 0 }
        ensures facts { IsFacts self.now }
    {
        self.bottlenecks[coflow as usize]
    }

    /// The greatest load of a coflow over its weight, in parts of 2^64, rounded down. A coflow of weight 0 has 2^105,
    /// and so has a number that is no coflow's.
    pub(crate) fn ratio(&self, coflow: u32) -> u128
        ensures ratio { result ≡ ratio_in self.now coflow }
        ensures within { result ≤ 2 ^ 105 }
    {
        let weight = key_in(&self.weights, coflow);
        if weight == 0 {
            return NO_RATIO;
        }
        u128::from(key_in(&self.bottlenecks, coflow)) * PARTS / u128::from(weight)
    }

    /// The coflow at a place of the order by bottleneck, select, scale, iterate; places count from 1.
    pub fn bssi(&self, place: u32) -> u32
        requires counted { 1 ≤ place }
        requires within { place ≤ coflows_in self.now }
        ensures coflow { result ≡ slice_index_or self.now.order (place - 1) 0 }
        ensures known { result < coflows_in self.now }
    {
        self.order[place as usize - 1]
    }

    /// The arrivals of the coflows, by number.
    pub fn arrivals(&self) -> &[u64]
        ensures { result.now ≡ self.now.arrivals }
    {
        &self.arrivals
    }

    /// The greatest loads of the coflows, by number.
    pub fn bottlenecks(&self) -> &[u64]
        ensures { result.now ≡ self.now.bottlenecks }
    {
        &self.bottlenecks
    }

    /// The order by bottleneck, select, scale, iterate.
    pub fn order(&self) -> &[u32]
        ensures order { result.now ≡ self.now.order }
        ensures facts { IsFacts self.now }
    {
        &self.order
    }
}

/// The coflows of a table in the order by bottleneck, select, scale, iterate.
fn order_in(alloc: Global, table: &Table, weights: &[u64]) -> Result<Vec<u32>, NoMemory>
    requires count { length weights.now ≡ length table.now.ids }
    requires weights { All (λ w. w ≤ MAX_WEIGHT) weights.now }
    ensures { IfOk result (λ order. IsBssiOrder table.now weights.now order.items) }
{
    let order = order_of(alloc, table, weights)?;
    let coflows = coflows_of(alloc, order.places())?;
    Ok(coflows)
}

/// The loads of the coflows of a table on its ports, and the greatest load of each coflow, by number.
fn measured(alloc: Global, table: &Table) -> Result<(Loads, Vec<u64>), NoMemory>
    ensures coflows_are { IfOk result (λ m. m.0.coflows ≡ length table.now.ids) }
    ensures ports_are { IfOk result (λ m. m.0.ports ≡ table.now.ports) }
    ensures loads_are { IfOk result (λ m. HasLoads table.now.flows m.0) }
    ensures length { IfOk result (λ m. length m.1.items ≡ length table.now.ids) }
    ensures greatest { IfOk result (λ m. (c : ℕ) → c < length table.now.ids →
        IsBottleneck m.0 c (slice_index_or m.1.items c 0)) }
    ensures small { IfOk result (λ m. All (λ b. b ≤ MAX_UNITS) m.1.items) }
{
    let loads = loads_of(alloc, table)?;
    let bottlenecks = bottlenecks_of(alloc, &loads)?;
    Ok((loads, bottlenecks))
}

/// The arrivals of the coflows of a table, by number, each below 2^32.
fn arrivals_of(alloc: Global, table: &Table) -> Result<Vec<u64>, NoMemory>
    ensures arrivals { IfOk result (λ arrivals. arrivals.items ≡ table.now.arrivals) }
    ensures small { IfOk result (λ arrivals. All (λ a. a < 2 ^ 32) arrivals.items) }
    ensures table { OnOk result (IsTable table.now) }
{
    let mut arrivals = Vec::new(alloc);
    for coflow in 0..table.coflows() {
        arrivals.push(u64::from(table.arrival(coflow)))?;
    }
    Ok(arrivals)
}

/// The greatest load of each coflow, by number.
fn bottlenecks_of(alloc: Global, loads: &Loads) -> Result<Vec<u64>, NoMemory>
    ensures length { IfOk result (λ bottlenecks. length bottlenecks.items ≡ loads.now.coflows) }
    ensures greatest { IfOk result (λ bottlenecks. (c : ℕ) → c < loads.now.coflows →
        IsBottleneck loads.now c (slice_index_or bottlenecks.items c 0)) }
{
    let mut bottlenecks = Vec::new(alloc);
    for coflow in 0..loads.coflows() {
        bottlenecks.push(bottleneck(loads, coflow))?;
    }
    Ok(bottlenecks)
}

/// Writes the coflows of the places, in their order.
fn copy_coflows(places: &[Place], order: &mut [u32])
    requires { length places.now ≡ length order.old }
    ensures { order.new ≡ map (λ (x : Place). x.coflow) places.now }
{
    for place in 0..order.len() {
        order[place] = places[place].coflow;
    }
}

/// Writes the greatest load of each coflow, by number.
fn fill_bottlenecks(loads: &Loads, bottlenecks: &mut [u64])
    requires { length bottlenecks.old ≡ loads.now.coflows }
    ensures length { length bottlenecks.new ≡ loads.now.coflows }
    ensures greatest { (c : ℕ) → c < loads.now.coflows →
        IsBottleneck loads.now c (slice_index_or bottlenecks.new c 0) }
{
    for coflow in 0..loads.coflows() {
        bottlenecks[coflow as usize] = bottleneck(loads, coflow);
    }
}

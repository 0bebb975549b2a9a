//! Released certificates of tables, with their totals, and the greatest of these.
ghost use Rattle.std.specs.Prelude.{◌≡◌, ◌+◌, ◌≤◌, All, IfOk, length, reverse, slice_index};
ghost use Rattle.coflow_units.specs.declared.limits.TheConstants.{MAX_ARRIVAL, MAX_WEIGHT};
ghost use Rattle.flow_table.specs.Table.{instance_of};
ghost use Rattle.release_bound.specs.Release.{released_total};
ghost use Rattle.release_bound.specs.ReleaseOrder.{IsReleasedBy};
ghost use Rattle.release_bound.specs.Best.{IsBestReleased, arrivals_cost};

use crate::bssi::ReleaseBssi;
use crate::certificate::released_total;
use crate::place::ReleasePlace;
use crate::threshold::Threshold;
use coflow_units::NoMemory;
use flow_table::Table;
use port_load::Loads;
use std::alloc::Global;

/// A released certificate, from place 1 on, and its total.
#[derive(Drop)]
pub struct Released {
    pub places: Vec<ReleasePlace>,
    pub total: u128,
}

/// Of the released certificates of a table, one by each threshold, the first that has the greatest total. There is a
/// weight and an arrival, in slots, for each coflow. The error is want of memory.
pub fn best_released(
    alloc: Global,
    table: &Table,
    weights: &[u64],
    arrivals: &[u64],
) -> Result<Released, NoMemory>
    requires weight_each { length weights.now ≡ length table.now.ids }
    requires weight_range { All (λ w. w ≤ MAX_WEIGHT) weights.now }
    requires arrival_each { length arrivals.now ≡ length table.now.ids }
    requires arrival_range { All (λ a. a ≤ MAX_ARRIVAL + 1) arrivals.now }
    ensures { IfOk result (λ best. IsBestReleased (instance_of table.now weights.now) (slice_index arrivals.now)
        (reverse best.places.items) best.total) }
{
    let mut best = released_by(alloc, table, weights, arrivals, Threshold::Zero)?;
    for by in &Threshold::ALL[1..] {
        let other = released_by(alloc, table, weights, arrivals, *by)?;
        if other.total > best.total {
            best = other;
        }
    }
    Ok(best)
}

/// The released certificate of a table by a threshold, with its total. There is a weight and an arrival, in slots, for
/// each coflow. The error is want of memory.
pub fn released_by(
    alloc: Global,
    table: &Table,
    weights: &[u64],
    arrivals: &[u64],
    by: Threshold,
) -> Result<Released, NoMemory>
    requires weight_each { length weights.now ≡ length table.now.ids }
    requires weight_range { All (λ w. w ≤ MAX_WEIGHT) weights.now }
    requires arrival_each { length arrivals.now ≡ length table.now.ids }
    requires arrival_range { All (λ a. a ≤ MAX_ARRIVAL + 1) arrivals.now }
    ensures certificate { IfOk result (λ made. IsReleasedBy by (instance_of table.now weights.now)
        (slice_index arrivals.now) (reverse made.places.items)) }
    ensures total { IfOk result (λ made. made.total
        ≡ released_total table.now.flows (slice_index arrivals.now) table.now.ports (reverse made.places.items)) }
{
    let mut loads = Loads::of(alloc, table.flows(), table.coflows(), table.ports())?;
    let mut order = ReleaseBssi::with_room(alloc, table.coflows(), table.ports())?;
    order.run(&mut loads, weights, arrivals, by);
    let places = Vec::from_slice(alloc, order.places())?;
    drop(order);
    drop(loads);
    let loads = Loads::of(alloc, table.flows(), table.coflows(), table.ports())?;
    let total = released_total(&loads, arrivals, weights, &places);
    Ok(Released { places, total })
}

/// The sum of weight times arrival of the coflows that have units. There is a weight and an arrival, in slots, for each
/// coflow.
pub fn arrivals_cost(table: &Table, weights: &[u64], arrivals: &[u64]) -> u128
    requires weight_each { length weights.now ≡ length table.now.ids }
    requires weight_range { All (λ w. w ≤ MAX_WEIGHT) weights.now }
    requires arrival_each { length arrivals.now ≡ length table.now.ids }
    requires arrival_range { All (λ a. a ≤ MAX_ARRIVAL + 1) arrivals.now }
    ensures { result ≡ arrivals_cost (instance_of table.now weights.now) (slice_index arrivals.now) }
{
    let starts = table.starts();
    let mut total: u128 = 0;
    for coflow in 0..weights.len() {
        if starts[coflow] < starts[coflow + 1] {
            total += u128::from(weights[coflow]) * u128::from(arrivals[coflow]);
        }
    }
    total
}

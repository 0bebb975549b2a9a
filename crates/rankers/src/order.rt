//! The order by bottleneck, select, scale, iterate of all coflows of a table.
ghost use Rattle.std.specs.Prelude.{◌≡◌, ◌<◌, ◌≤◌, All, IfOk, length, map};
ghost use Rattle.coflow_units.specs.declared.limits.TheConstants.{MAX_UNITS, MAX_WEIGHT};
ghost use Rattle.coflow_units.specs.declared.fabric.Port.{Port};
ghost use Rattle.coflow_units.specs.declared.plan.Place.{Place};
ghost use Rattle.bssi_order.specs.Order.{IsOrder};
ghost use Rattle.flow_table.specs.Table.{instance_of};
ghost use Rattle.port_load.specs.LoadTable.{HasLoads, total_at};

use bssi_order::Bssi;
use coflow_units::{NoMemory, Place};
use flow_table::Table;
use port_load::Loads;
use std::alloc::Global;

/// The order of all coflows of the table, with a weight for each, at most 2^32, with the places of the ordering
/// certificate. The error is want of memory.
pub fn order_of(alloc: Global, table: &Table, weights: &[u64]) -> Result<Bssi, NoMemory>
    requires count { length weights.now ≡ length table.now.ids }
    requires weights { All (λ w. w ≤ MAX_WEIGHT) weights.now }
    ensures order { IfOk result (λ order. IsOrder (instance_of table.now weights.now) order.places) }
{
    let mut loads = loads_of(alloc, table)?;
    let present = vec![in alloc; true; weights.len()]?;
    let mut order = Bssi::with_room(alloc, table.coflows(), table.ports())?;
    order.run(&mut loads, weights, &present);
    Ok(order)
}

/// The loads of all coflows of the table on its ports. The error is want of memory.
pub fn loads_of(alloc: Global, table: &Table) -> Result<Loads, NoMemory>
    ensures coflows_are { IfOk result (λ loads. loads.coflows ≡ length table.now.ids) }
    ensures ports_are { IfOk result (λ loads. loads.ports ≡ table.now.ports) }
    ensures loads_are { IfOk result (λ loads. HasLoads table.now.flows loads) }
    ensures totals_fit { IfOk result (λ loads. (port : Port) → port.number < loads.ports →
        total_at loads port ≤ MAX_UNITS) }
{
    let loads = Loads::of(alloc, table.flows(), table.coflows(), table.ports())?;
    Ok(loads)
}

/// The coflows of the places.
pub(crate) fn coflows_of(alloc: Global, places: &[Place]) -> Result<Vec<u32>, NoMemory>
    ensures { IfOk result (λ coflows. coflows.items ≡ map (λ (x : Place). x.coflow) places.now) }
{
    let mut coflows = Vec::new(alloc);
    for place in places {
        coflows.push(place.coflow)?;
    }
    Ok(coflows)
}

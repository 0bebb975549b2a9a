//! What a publishing says.
ghost use Rattle.std.specs.Prelude.{◌≡◌, ◌≤◌, ◌<◌, ℕ, All, IfOk, List, length, map, sum};
ghost use Rattle.coflow_units.specs.declared.limits.TheConstants.{MAX_UNITS, MAX_WEIGHT};
ghost use Rattle.coflow_units.specs.declared.plan.Place.{Place};
ghost use Rattle.coflow_units.specs.Certificate.{bound, entry_of};
ghost use Rattle.coflow_units.specs.Flows.{Instance, IsInstance};
ghost use Rattle.port_load.specs.LoadTable.{IsSameSize};
ghost use Rattle.bssi_order.specs.Order.{IsOrder};
ghost use Rattle.journal.specs.Chosen.{the_ordering};
ghost use Rattle.master_core.specs.Published.{IsLeft};
ghost use Rattle.online_runs.specs.Value.{epoch_of, place_line};

use coflow_units::{Items, NoMemory, Place};
use dual_cert::{Cert, bound};
use flow_table::Table;
use online_text::{Epoch, OnlinePlace};
use port_load::Loads;
use std::alloc::Global;

/// The publishing of these places at this time, where the flows of the table have so many units left and these coflows
/// are present. The places are the order of what is left. The loads are filled anew for the bound. The error is want of
/// memory.
pub fn epoch_of(
    alloc: Global,
    table: &Table,
    loads: &mut Loads,
    time: u64,
    places: &[Place],
    left: &[u64],
    present: &[bool],
) -> Result<Epoch, NoMemory>
    requires coflows { loads.old.coflows ≡ length table.now.ids }
    requires ports { loads.old.ports ≡ table.now.ports }
    requires each_left { length left.now ≡ length table.now.flows }
    requires each_present { length present.now ≡ length table.now.ids }
    requires units { sum left.now ≤ MAX_UNITS }
    requires order { (i : Instance) × (weights : List ℕ) × IsInstance i × IsOrder i places.now ×
        IsLeft i table.now.flows left.now weights present.now table.now.ports × All (λ w. w ≤ MAX_WEIGHT) weights }
    ensures epoch { (i : Instance) (weights : List ℕ) → IsInstance i → IsOrder i places.now →
        IsLeft i table.now.flows left.now weights present.now table.now.ports →
        IfOk result (λ e. e ≡ epoch_of table.now.ids time i) }
    ensures size { IsSameSize loads.old loads.new }
{
    let bound = bound_of(alloc, table, loads, places, left, present)?;
    let lines = order_lines(alloc, table, places)?;
    Ok(Epoch {
        time,
        places: Items::from_vec(lines),
        bound,
    })
}

/// The bound that the order of what is left proves. These are its places, the flows of the table have so many units
/// left, and these coflows are present. The loads are filled anew. The error is want of memory.
pub fn bound_of(
    alloc: Global,
    table: &Table,
    loads: &mut Loads,
    places: &[Place],
    left: &[u64],
    present: &[bool],
) -> Result<u128, NoMemory>
    requires coflows { loads.old.coflows ≡ length table.now.ids }
    requires ports { loads.old.ports ≡ table.now.ports }
    requires each_left { length left.now ≡ length table.now.flows }
    requires each_present { length present.now ≡ length table.now.ids }
    requires units { sum left.now ≤ MAX_UNITS }
    requires order { (i : Instance) × (weights : List ℕ) × IsInstance i × IsOrder i places.now ×
        IsLeft i table.now.flows left.now weights present.now table.now.ports × All (λ w. w ≤ MAX_WEIGHT) weights }
    ensures bound { (i : Instance) (weights : List ℕ) → IsInstance i → IsOrder i places.now →
        IsLeft i table.now.flows left.now weights present.now table.now.ports →
        IfOk result (λ least. least ≡ bound i.flows (the_ordering i)) }
    ensures size { IsSameSize loads.old loads.new }
{
    loads.fill_by_coflow(table.flows(), table.starts(), left, present);
    let cert = Cert::of(alloc, places)?;
    let least = bound(loads, &cert);
    Ok(least)
}

/// What a publishing says of each place.
fn order_lines(alloc: Global, table: &Table, places: &[Place]) -> Result<Vec<OnlinePlace>, NoMemory>
    requires { All (λ (x : Place). x.coflow < length table.now.ids) places.now }
    ensures { IfOk result (λ lines.
        lines.items ≡ map (λ (x : Place). place_line table.now.ids (entry_of x)) places.now) }
{
    let mut lines = Vec::with_capacity(alloc, places.len())?;
    for place in places {
        lines.push(OnlinePlace {
            id: table.id(place.coflow),
            port: place.port,
            y: place.y,
        })?;
    }
    Ok(lines)
}

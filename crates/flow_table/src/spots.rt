//! Numbers that stand at locations, sorted so that those of one location stand together.
ghost use Rattle.std.specs.Prelude.{◌≡◌, ℕ, ◌%◌, ◌^◌, ◌<◌, ◌≤◌, ◌==◌, All, IfOk, OnOk, if◌then◌else◌, length, slice_index, sum_by};
ghost use Rattle.coflow_units.specs.declared.limits.TheConstants.{MAX_MAPPERS};
ghost use Rattle.std.specs.List.Sorted.{IsPermutation};
ghost use Rattle.coflow_units.specs.declared.trace.Reducer.{Reducer};
ghost use Rattle.flow_table.specs.declared.spots.Spot.{Spot};
ghost use Rattle.flow_table.specs.Sent.{places};
ghost use Rattle.flow_table.specs.Spots.{EndsAt, IsByLocation, sum_at};
ghost use Rattle.flow_table.specs.Units.{units_of_reducer};

use crate::units::units_of_reducer;
use coflow_units::{CoflowLine, UnitSize};
use std::alloc::{AllocError, Global};

/// A number at a location.
#[derive(Clone, Copy)]
pub(crate) struct Spot {
    pub(crate) location: u32,
    pub(crate) number: u32,
}

/// The mappers of a coflow: at each location their places in the line, ascending.
pub(crate) fn mapper_places(alloc: Global, line: &CoflowLine) -> Result<Vec<Spot>, AllocError>
    requires few { length line.now.mappers ≤ MAX_MAPPERS }
    ensures sorted { IfOk result (λ spots. IsByLocation spots.items) }
    ensures count { IfOk result (λ spots. length spots.items ≡ length line.now.mappers) }
    ensures within { IfOk result (λ spots. (ports : ℕ) → All (λ m. m < ports) line.now.mappers →
        All (λ (s : Spot). s.location < ports) spots.items) }
    ensures sums { IfOk result (λ spots. (f : ℕ → ℕ) (location : ℕ) →
        sum_at f spots.items location ≡
        sum_by (λ place. if slice_index line.now.mappers place == location then f place else 0) (places line.now)) }
{
    let mut spots = Vec::new(alloc);
    for (place, location) in line.mappers.as_slice().iter().enumerate() {
        spots.push(Spot {
            location: *location,
            number: place as u32,
        })?;
    }
    sort_spots(&mut spots)?;
    Ok(spots)
}

/// The reducers of a coflow: at each location the rests of their units, ascending, when all mappers have sent the same.
pub(crate) fn reducer_rests(
    alloc: Global,
    line: &CoflowLine,
    unit: UnitSize,
) -> Result<Vec<Spot>, AllocError>
    requires has_mapper { 1 ≤ length line.now.mappers }
    requires few { length line.now.mappers ≤ MAX_MAPPERS }
    ensures sorted { IfOk result (λ spots. IsByLocation spots.items) }
    ensures count { IfOk result (λ spots. length spots.items ≡ length line.now.reducers) }
    ensures within { IfOk result (λ spots. (ports : ℕ) → All (λ (r : Reducer). r.location < ports) line.now.reducers →
        All (λ (s : Spot). s.location < ports) spots.items) }
    ensures sums { IfOk result (λ spots. (f : ℕ → ℕ) (location : ℕ) →
        sum_at f spots.items location ≡
        sum_by (λ (r : Reducer).
        if r.location == location then f (units_of_reducer unit.megabytes r % length line.now.mappers) else 0)
        line.now.reducers) }
{
    let mappers = line.mappers.as_slice().len() as u64;
    let mut spots = Vec::new(alloc);
    for reducer in line.reducers.as_slice() {
        let rest = units_of_reducer(reducer, unit) % mappers;
        spots.push(Spot {
            location: reducer.location,
            number: rest as u32,
        })?;
    }
    sort_spots(&mut spots)?;
    Ok(spots)
}

/// Sorts by location, and at one location by number.
fn sort_spots(spots: &mut Vec<Spot>) -> Result<(), AllocError>
    ensures sorted { OnOk result (IsByLocation spots.new.items) }
    ensures moved { OnOk result (IsPermutation spots.old.items spots.new.items) }
{
    spots.sort_by_key(|spot| spot.number)?;
    spots.sort_by_key(|spot| spot.location)?;
    Ok(())
}

/// The end of the spots at the location, of which the first one, if any, has this index.
pub(crate) fn end_of(spots: &[Spot], first: usize, location: u32) -> usize
    requires first_in { first ≤ length spots.now }
    ensures { EndsAt spots.now location first result }
{
    let mut end = first;
    while end < spots.len() && spots[end].location == location {
        end += 1;
    }
    end
}

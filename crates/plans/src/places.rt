//! What a report says of each place.
ghost use Rattle.std.specs.Prelude.{◌≡◌, ◌<◌, ◌^◌, All, IfOk, length, map, slice_index};
ghost use Rattle.coflow_units.specs.declared.plan.Place.{Place};
ghost use Rattle.report_text.specs.declared.value.PlaceLine.{PlaceLine};
ghost use Rattle.plans.specs.PlanReport.{line_from};

use coflow_units::{NoMemory, Place};
use flow_table::Table;
use report_text::PlaceLine;
use std::alloc::Global;

/// The lines of the places: each with the id of its coflow and the coflow's completion, which `ends` has by number.
pub fn place_lines(
    alloc: Global,
    table: &Table,
    places: &[Place],
    ends: &[u64],
) -> Result<Vec<PlaceLine>, NoMemory>
    requires coflow { All (λ (x : Place). x.coflow < length table.now.ids) places.now }
    requires ends { length ends.now ≡ length table.now.ids }
    ensures lines { IfOk result (λ lines. lines.items ≡ map (line_from table.now.ids ends.now) places.now) }
    ensures ids { IfOk result (λ lines. All (λ (line : PlaceLine). line.id < 2 ^ 32) lines.items) }
{
    let mut lines = Vec::new(alloc);
    for place in places {
        lines.push(line_of(table, ends, place))?;
    }
    Ok(lines)
}

/// The line of a place, from the id of its coflow and the completions of the coflows.
fn line_of(table: &Table, ends: &[u64], place: &Place) -> PlaceLine
    requires id { place.now.coflow < length table.now.ids }
    requires end { place.now.coflow < length ends.now }
    ensures line { result ≡ line_from table.now.ids ends.now place.now }
    ensures id { result.id < 2 ^ 32 }
{
    PlaceLine {
        id: table.id(place.coflow),
        port: place.port,
        y: place.y,
        done: ends[place.coflow as usize],
    }
}

/// The weight of the coflow of each place.
pub fn place_weights(alloc: Global, weights: &[u64], places: &[Place]) -> Result<Vec<u64>, NoMemory>
    requires coflow { All (λ (x : Place). x.coflow < length weights.now) places.now }
    ensures { IfOk result (λ list. list.items ≡ map (λ (x : Place). slice_index weights.now x.coflow) places.now) }
{
    let mut list = Vec::new(alloc);
    for place in places {
        list.push(weights[place.coflow as usize])?;
    }
    Ok(list)
}

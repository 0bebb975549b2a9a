//! What an online run says when it has ended.
ghost use Rattle.std.specs.Prelude.{◌≡◌, ◌≤◌, ◌<◌, ℕ, All, IfOk, length, map, slice_index};
ghost use Rattle.std.specs.List.{range_with_len};
ghost use Rattle.coflow_units.specs.declared.limits.TheConstants.{MAX_WEIGHT};
ghost use Rattle.coflow_units.specs.Completion.{completion, cost};
ghost use Rattle.coflow_units.specs.Schedule.{IsRuns};
ghost use Rattle.schedule_model.specs.RunList.{NamesFlows, pairs_of};
ghost use Rattle.release_bound.specs.declared.place.ReleasePlace.{ReleasePlace};
ghost use Rattle.online_runs.specs.Value.{release_line};

use coflow_units::{Items, NoMemory};
use flow_table::Table;
use online_text::{DoneLine, Epoch, Online, ReleaseLine};
use release_bound::{ReleasePlace, Released};
use schedule_model::{Schedule, completions, cost_of};
use std::alloc::Global;

/// What an online run says that has come to its end: these are its publishings and its schedule, and it has this
/// released certificate of the coflows of the table. The error is want of memory.
pub fn told(
    alloc: Global,
    table: &Table,
    weights: &[u64],
    released: &Released,
    epochs: Vec<Epoch>,
    schedule: Schedule,
) -> Result<Online, NoMemory>
    requires weight_each { length weights.now ≡ length table.now.ids }
    requires weight_range { All (λ w. w ≤ MAX_WEIGHT) weights.now }
    requires places { All (λ (r : ReleasePlace). r.coflow < length table.now.ids) released.now.places.items }
    requires names { NamesFlows (length table.now.flows) schedule }
    ensures epochs { IfOk result (λ x. x.epochs ≡ epochs.items) }
    ensures done { IfOk result (λ x. x.done ≡ map (λ c. record {
      id = slice_index table.now.ids c;
      slot = completion table.now.flows schedule c;
    }) (range_with_len 0 (length table.now.ids))) }
    ensures cost { IfOk result (λ x. x.cost ≡ cost table.now.flows (slice_index weights.now)
        (range_with_len 0 (length table.now.ids)) schedule) }
    ensures release { IfOk result (λ x. x.release ≡ map (release_line table.now.ids) released.now.places.items) }
    ensures total { IfOk result (λ x. x.total ≡ released.now.total) }
    ensures runs { IfOk result (λ x. IsRuns schedule (pairs_of x.runs)) }
{
    let done = done_of(alloc, table, weights, &schedule)?;
    let release = release_lines(alloc, table, &released.places)?;
    Ok(Online {
        epochs: Items::from_vec(epochs),
        done: Items::from_vec(done.lines),
        cost: done.cost,
        release: Items::from_vec(release),
        total: released.total,
        runs: schedule.into_runs(),
    })
}

/// The completions of all coflows as lines, with their cost.
#[derive(Drop)]
struct Done {
    lines: Vec<DoneLine>,
    cost: u128,
}

/// The completions of the table's coflows in the schedule as lines, and their cost with these weights.
fn done_of(
    alloc: Global,
    table: &Table,
    weights: &[u64],
    schedule: &Schedule,
) -> Result<Done, NoMemory>
    requires weight_each { length weights.now ≡ length table.now.ids }
    requires weight_range { All (λ w. w ≤ MAX_WEIGHT) weights.now }
    requires names { NamesFlows (length table.now.flows) schedule.now }
    ensures lines { IfOk result (λ d. d.lines.items ≡ map (λ c. record {
      id = slice_index table.now.ids c;
      slot = completion table.now.flows schedule.now c;
    }) (range_with_len 0 (length table.now.ids))) }
    ensures cost { IfOk result (λ d. d.cost ≡ cost table.now.flows (slice_index weights.now)
        (range_with_len 0 (length table.now.ids)) schedule.now) }
{
    let ends = completions(alloc, table.flows(), table.coflows(), schedule)?;
    let lines = done_lines(alloc, table, &ends)?;
    let cost = cost_of(weights, &ends);
    Ok(Done { lines, cost })
}

/// The line of each coflow, with its completion.
fn done_lines(alloc: Global, table: &Table, ends: &[u64]) -> Result<Vec<DoneLine>, NoMemory>
    requires { length ends.now ≡ length table.now.ids }
    ensures { IfOk result (λ lines. lines.items ≡ map (λ c. record {
      id = slice_index table.now.ids c;
      slot = slice_index ends.now c;
    }) (range_with_len 0 (length table.now.ids))) }
{
    let mut lines = Vec::new(alloc);
    for coflow in 0..table.coflows() {
        lines.push(DoneLine {
            id: table.id(coflow),
            slot: ends[coflow as usize],
        })?;
    }
    Ok(lines)
}

/// What a line says of each place.
fn release_lines(
    alloc: Global,
    table: &Table,
    places: &[ReleasePlace],
) -> Result<Vec<ReleaseLine>, NoMemory>
    requires { All (λ (r : ReleasePlace). r.coflow < length table.now.ids) places.now }
    ensures { IfOk result (λ lines. lines.items ≡ map (release_line table.now.ids) places.now) }
{
    let mut lines = Vec::new(alloc);
    for place in places {
        lines.push(ReleaseLine {
            id: table.id(place.coflow),
            port: place.port,
            y: place.y,
            z: place.z,
        })?;
    }
    Ok(lines)
}

//! What coflows owe while they are served.
ghost use Rattle.std.specs.Prelude.{◌≡◌, ◌-◌, ◌+◌, ◌<◌, ◌≤◌, ℕ, if◌then◌else◌, All, IfOk, length, map, slice_index};
ghost use Rattle.std.specs.List.Sorted.{IsStrictlyIncreasing};
ghost use Rattle.coflow_units.specs.declared.limits.TheConstants.{MAX_SLOT};
ghost use Rattle.coflow_units.specs.declared.fabric.Flow.{Flow};
ghost use Rattle.coflow_units.specs.Completion.{holds_coflow};
ghost use Rattle.coflow_units.specs.Schedule.{holds};
ghost use Rattle.epochs.specs.Tallies.{IsTallied};

use coflow_units::{Flow, NoMemory};
use epochs::{spend, units_of_coflows, units_of_flows};
use flow_table::Table;
use std::alloc::Global;

/// How many slots have passed, the units that each flow and each coflow has left, and the last slot in which each
/// coflow was served, 0 where it was served in none.
#[derive(Drop)]
pub(crate) struct Progress {
    pub(crate) time: u64,
    pub(crate) left: Vec<u64>,
    pub(crate) owed: Vec<u64>,
    pub(crate) ends: Vec<u64>,
}

/// Before the first slot: all units are left. The error is want of memory.
pub(crate) fn no_progress(alloc: Global, table: &Table) -> Result<Progress, NoMemory>
    ensures time { IfOk result (λ p. p.time ≡ 0) }
    ensures left { IfOk result (λ p. p.left.items ≡ map (λ (x : Flow). x.units) table.now.flows) }
    ensures each { IfOk result (λ p. length p.owed.items ≡ length table.now.ids) }
    ensures tallied { IfOk result (λ p. IsTallied table.now.flows p.left.items p.owed.items) }
    ensures each_end { IfOk result (λ p. length p.ends.items ≡ length table.now.ids) }
    ensures ends { IfOk result (λ p. All (λ end. end ≡ 0) p.ends.items) }
{
    let left = units_of_flows(alloc, table.flows())?;
    let owed = units_of_coflows(alloc, table.flows(), &left, table.coflows())?;
    let ends = vec![in alloc; 0u64; table.coflows() as usize]?;
    Ok(Progress {
        time: 0,
        left,
        owed,
        ends,
    })
}

/// So many slots pass, in each of which these flows are served.
pub(crate) fn serve(progress: &mut Progress, flows: &[Flow], granted: &[u32], slots: u64)
    requires tallied { IsTallied flows.now progress.old.left.items progress.old.owed.items }
    requires within { All (λ (x : Flow). x.coflow < length progress.old.owed.items) flows.now }
    requires each_end { length progress.old.ends.items ≡ length progress.old.owed.items }
    requires flow { All (λ f. f < length flows.now) granted.now }
    requires ascending { IsStrictlyIncreasing granted.now }
    requires owes { All (λ f. slots ≤ slice_index progress.old.left.items f) granted.now }
    requires short { progress.old.time + slots ≤ MAX_SLOT }
    ensures time { progress.new.time ≡ progress.old.time + slots }
    ensures tallied { IsTallied flows.now progress.new.left.items progress.new.owed.items }
    ensures each { length progress.new.owed.items ≡ length progress.old.owed.items }
    ensures left { (f : ℕ) → slice_index progress.new.left.items f
        ≡ slice_index progress.old.left.items f - (if holds granted.now f then slots else 0) }
    ensures each_end { length progress.new.ends.items ≡ length progress.old.ends.items }
    ensures ends { (coflow : ℕ) → coflow < length progress.old.ends.items →
        slice_index progress.new.ends.items coflow ≡ (if holds_coflow flows.now granted.now coflow
        then progress.old.time + slots else slice_index progress.old.ends.items coflow) }
{
    spend(
        &mut progress.left,
        &mut progress.owed,
        flows,
        granted,
        slots,
    );
    progress.time += slots;
    mark_ends(flows, granted, progress.time, &mut progress.ends);
}

/// Writes the slot as the end of each coflow that has one of these flows.
fn mark_ends(flows: &[Flow], numbers: &[u32], slot: u64, ends: &mut [u64])
    requires flow { All (λ f. f < length flows.now) numbers.now }
    requires within { All (λ (x : Flow). x.coflow < length ends.old) flows.now }
    ensures { (coflow : ℕ) → coflow < length ends.old → slice_index ends.new coflow
        ≡ (if holds_coflow flows.now numbers.now coflow then slot else slice_index ends.old coflow) }
{
    for flow in numbers {
        ends[flows[*flow as usize].coflow as usize] = slot;
    }
}

//! When coflows end, and what a schedule costs.
ghost use Rattle.std.specs.Prelude.{◌≡◌, ◌<◌, ◌≤◌, ◌*◌, ◌^◌, ℕ, All, List, IfOk, OnOk, if◌then◌else◌, length, map, slice_index, sum_by};
ghost use Rattle.coflow_units.specs.declared.limits.TheConstants.{MAX_WEIGHT};
ghost use Rattle.std.specs.List.{range_with_len};
ghost use Rattle.coflow_units.specs.declared.fabric.Flow.{Flow};
ghost use Rattle.coflow_units.specs.Completion.{completion, holds_coflow};
ghost use Rattle.schedule_model.specs.RunList.{IsKept, NamesFlows, slots_in};
ghost use Rattle.schedule_model.specs.Weights.{weighted_cost};

use crate::schedule::Schedule;
use coflow_units::{Flow, NoMemory};
use run_list::Runs;
use std::alloc::Global;

/// The completions of the coflows with the numbers from 0 to `coflows` less 1, by one pass over the runs.
///
/// The numbers in the schedule are flows'. It takes room for the answer and, four times, for the most flows that a run
/// has; `NoMemory` says that it was not to be had.
pub fn completions(
    alloc: Global,
    flows: &[Flow],
    coflows: u32,
    schedule: &Schedule,
) -> Result<Vec<u64>, NoMemory>
    requires { NamesFlows (length flows.now) schedule.now }
    ensures { IfOk result (λ ends. ends.items ≡
        map (λ c. completion flows.now schedule.now c) (range_with_len 0 coflows)) }
{
    let ends = completions_of_runs(alloc, flows, coflows, schedule.kept())?;
    Ok(ends)
}

/// As `completions`, of the schedule whose runs these are.
pub fn completions_of_runs(
    alloc: Global,
    flows: &[Flow],
    coflows: u32,
    runs: &Runs,
) -> Result<Vec<u64>, NoMemory>
    requires kept { IsKept runs.now }
    requires names { NamesFlows (length flows.now) (slots_in runs.now) }
    ensures { IfOk result (λ ends. ends.items ≡
        map (λ c. completion flows.now (slots_in runs.now) c) (range_with_len 0 coflows)) }
{
    let mut ends = vec![in alloc; 0u64; coflows as usize]?;
    fill_ends(alloc, flows, runs, &mut ends)?;
    Ok(ends)
}

/// Writes the completions of the coflows, each at its number: a coflow ends with the last of its flows that is gone.
fn fill_ends(alloc: Global, flows: &[Flow], runs: &Runs, ends: &mut [u64]) -> Result<(), NoMemory>
    requires kept { IsKept runs.now }
    requires names { NamesFlows (length flows.now) (slots_in runs.now) }
    requires zero { All (λ e. e ≡ 0) ends.old }
    ensures { OnOk result ((k : ℕ) → k < length ends.old →
        slice_index ends.new k ≡ completion flows.now (slots_in runs.now) k) }
{
    let mut walk = runs.walk(alloc)?;
    let mut slot = 0;
    for place in 0..runs.count() {
        let slots = walk.enter();
        mark_ends(flows, walk.gone(), slot, ends);
        slot += slots;
    }
    mark_ends(flows, walk.flows(), slot, ends);
    Ok(())
}

/// Writes the slot as the end of each coflow that has a flow in it.
fn mark_ends(flows: &[Flow], numbers: &[u32], slot: u64, ends: &mut [u64])
    requires { All (λ f. f < length flows.now) numbers.now }
    ensures { (k : ℕ) → k < length ends.old →
        slice_index ends.new k ≡ (if holds_coflow flows.now numbers.now k then slot else slice_index ends.old k) }
{
    for flow in numbers {
        let coflow = flows[*flow as usize].coflow as usize;
        if coflow >= ends.len() {
            continue;
        }
        ends[coflow] = slot;
    }
}

/// The sum of weight times completion over the coflows, which both lists have by number: the cost of the schedule in
/// which they end so. There are at most 2^32, with weights of at most 2^32.
pub fn cost_of(weights: &[u64], ends: &[u64]) -> u128
    requires each { length ends.now ≡ length weights.now }
    requires few { length weights.now ≤ 2 ^ 32 }
    requires small { All (λ w. w ≤ MAX_WEIGHT) weights.now }
    ensures total { result ≡ sum_by (λ c. slice_index weights.now c * slice_index ends.now c)
        (range_with_len 0 (length weights.now)) }
    ensures cost { (flows : List Flow) (slots : List (List ℕ)) →
        ends.now ≡ map (λ c. completion flows slots c) (range_with_len 0 (length weights.now)) →
        result ≡ weighted_cost flows weights.now slots }
{
    let mut cost = 0;
    for coflow in 0..weights.len() {
        cost += u128::from(weights[coflow]) * u128::from(ends[coflow]);
    }
    cost
}

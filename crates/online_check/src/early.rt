//! Slots that hold a coflow before it has come.
ghost use Rattle.std.specs.Prelude.{◌≡◌, ◌<◌, ◌≤◌, ◌⊎◌, ℕ, All, IfOk, MatchOption, false, length, slice_index, take};
ghost use Rattle.coflow_units.specs.declared.fabric.Flow.{Flow};
ghost use Rattle.coflow_units.specs.Completion.{holds_coflow};
ghost use Rattle.schedule_model.specs.RunList.{IsKept, NamesFlows, slots_in};
ghost use Rattle.online_check.specs.Early.{IsFirstEarly};
ghost use Rattle.online_check.specs.Waiting.{HoldsWaiting};

use coflow_units::{Flow, NoMemory};
use run_list::Runs;
use std::alloc::Global;

/// The first slot that holds a flow of a coflow at or before its arrival, and the least such coflow in it. Arrivals go
/// by coflow. It looks once at each flow of each run: where some slot of a run is early, its first one is.
///
/// The error is want of memory.
pub(crate) fn first_early(
    alloc: Global,
    flows: &[Flow],
    arrivals: &[u64],
    runs: &Runs,
) -> Result<Option<(u64, u32)>, NoMemory>
    requires coflows { All (λ (x : Flow). x.coflow < length arrivals.now) flows.now }
    requires kept { IsKept runs.now }
    requires names { NamesFlows (length flows.now) (slots_in runs.now) }
    ensures { IfOk result (λ early. MatchOption early ((coflow : ℕ) →
        All (λ slot. holds_coflow flows.now slot coflow ≡ false)
        (take (slice_index arrivals.now coflow) (slots_in runs.now)))
        (λ e. IsFirstEarly flows.now (slice_index arrivals.now) (slots_in runs.now) e.0 e.1 ×
        (e.1 < length arrivals.now))) }
{
    let mut walk = runs.walk(alloc)?;
    let mut gone = 0;
    for place in 0..runs.count() {
        let slots = walk.enter();
        if let Some(coflow) = least_waiting(flows, arrivals, gone, walk.flows()) {
            return Ok(Some((gone + 1, coflow)));
        }
        gone += slots;
    }
    Ok(None)
}

/// The least coflow with a flow among these numbers that arrives when more slots than these are gone.
fn least_waiting(flows: &[Flow], arrivals: &[u64], gone: u64, numbers: &[u32]) -> Option<u32>
    requires coflows { All (λ (x : Flow). x.coflow < length arrivals.now) flows.now }
    requires names { All (λ f. f < length flows.now) numbers.now }
    ensures { MatchOption result ((c : ℕ) → HoldsWaiting flows.now (slice_index arrivals.now) gone numbers.now c → ⊥)
        (λ c. HoldsWaiting flows.now (slice_index arrivals.now) gone numbers.now c × (c < length arrivals.now) ×
        ((d : ℕ) → HoldsWaiting flows.now (slice_index arrivals.now) gone numbers.now d → c ≤ d)) }
{
    let mut least = None;
    for flow in numbers {
        let coflow = flows[*flow as usize].coflow;
        if arrivals[coflow as usize] <= gone {
            continue;
        }
        least = Some(lesser(least, coflow));
    }
    least
}

/// The lesser of the two numbers.
fn lesser(least: Option<u32>, number: u32) -> u32
    ensures within { result ≤ number }
    ensures cases { MatchOption least (result ≡ number)
        (λ before. (result ≤ before) × ((result ≡ before) ⊎ (result ≡ number))) }
{
    match least {
        Some(before) => before.min(number),
        None => number,
    }
}

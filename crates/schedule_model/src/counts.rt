//! In how many slots each flow stands.
ghost use Rattle.std.specs.Prelude.{◌≡◌, ◌≢◌, ◌<◌, ◌≤◌, ◌+◌, ◌-◌, ◌^◌, ℕ, All, IfOk, MatchOption, if◌then◌else◌, length, slice_index};
ghost use Rattle.std.specs.List.Sorted.{IsStrictlyIncreasing};
ghost use Rattle.coflow_units.specs.Flows.{units_of};
ghost use Rattle.coflow_units.specs.Schedule.{IsClear, holds};
ghost use Rattle.schedule_model.specs.RunList.{IsKept, slots_in};
ghost use Rattle.schedule_model.specs.Fault.{IsFirstFault};

use crate::fault::ScheduleFault;
use coflow_units::{Flow, NoMemory};
use run_list::Runs;
use std::alloc::Global;

/// The first flow that stands in another number of slots than it has units.
///
/// A flow is counted when it is gone, by the slots since it came.
pub(crate) fn find_miscount(
    alloc: Global,
    flows: &[Flow],
    runs: &Runs,
) -> Result<Option<ScheduleFault>, NoMemory>
    requires kept { IsKept runs.now }
    requires few { length flows.now ≤ 2 ^ 32 }
    requires clear { All (IsClear flows.now) (slots_in runs.now) }
    ensures { IfOk result (λ fault. IsFirstFault flows.now (slots_in runs.now) fault) }
{
    let mut counts = vec![in alloc; 0u64; flows.len()]?;
    let mut since = vec![in alloc; 0u64; flows.len()]?;
    let mut walk = runs.walk(alloc)?;
    let mut slot = 0;
    for place in 0..runs.count() {
        let slots = walk.enter();
        add_since(&mut counts, &since, slot, walk.gone());
        note_since(&mut since, slot, walk.come());
        slot += slots;
    }
    add_since(&mut counts, &since, slot, walk.flows());
    let Some(number) = first_miscount(flows, &counts) else {
        return Ok(None);
    };
    Ok(Some(ScheduleFault::Units {
        flow: number as u32,
        have: counts[number],
        want: flows[number].units,
    }))
}

/// Adds to the count of each of the flows the slots from the one since which it stands up to this one.
fn add_since(counts: &mut [u64], since: &[u64], slot: u64, flows: &[u32])
    requires ascending { IsStrictlyIncreasing flows.now }
    requires names { All (λ f. f < length counts.old) flows.now }
    requires same { length since.now ≡ length counts.old }
    requires past { (f : ℕ) → slice_index since.now f ≤ slot }
    requires fits { (f : ℕ) → slice_index counts.old f + slot < 2 ^ 64 }
    ensures { (f : ℕ) → slice_index counts.new f ≡
        slice_index counts.old f + (if holds flows.now f then slot - slice_index since.now f else 0) }
{
    for flow in flows {
        counts[*flow as usize] += slot - since[*flow as usize];
    }
}

/// Writes the slot as the one since which each of the flows stands.
fn note_since(since: &mut [u64], slot: u64, flows: &[u32])
    requires { All (λ f. f < length since.old) flows.now }
    ensures { (f : ℕ) → slice_index since.new f ≡ (if holds flows.now f then slot else slice_index since.old f) }
{
    for flow in flows {
        since[*flow as usize] = slot;
    }
}

/// Adds the number of slots to the count of each of the flows.
pub(crate) fn add_run(counts: &mut [u64], slots: u64, flows: &[u32])
    requires ascending { IsStrictlyIncreasing flows.now }
    requires names { All (λ f. f < length counts.old) flows.now }
    requires fits { (f : ℕ) → slice_index counts.old f + slots < 2 ^ 64 }
    ensures { (f : ℕ) → slice_index counts.new f ≡ slice_index counts.old f + (if holds flows.now f then slots else 0) }
{
    for flow in flows {
        counts[*flow as usize] += slots;
    }
}

/// The number of the first flow whose count is not that of its units.
fn first_miscount(flows: &[Flow], counts: &[u64]) -> Option<usize>
    requires { length counts.now ≡ length flows.now }
    ensures { MatchOption result ((f : ℕ) → f < length flows.now → slice_index counts.now f ≡ units_of flows.now f)
        (λ f. (f < length flows.now) × (slice_index counts.now f ≢ units_of flows.now f) ×
        ((g : ℕ) → g < f → slice_index counts.now g ≡ units_of flows.now g)) }
{
    for number in 0..flows.len() {
        if counts[number] != flows[number].units {
            return Some(number);
        }
    }
    None
}

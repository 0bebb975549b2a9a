//! Numbers in a schedule that are no flow's.
ghost use Rattle.std.specs.Prelude.{◌<◌, ◌≤◌, ℕ, All, Contains, IfOk, MatchOption, length};
ghost use Rattle.std.specs.List.Sorted.{IsStrictlyIncreasing};
ghost use Rattle.schedule_model.specs.RunList.{IsKept, NamesFlows, slots_in};
ghost use Rattle.schedule_model.specs.Fault.{IsFirstNoFlow};

use coflow_units::{Flow, NoMemory};
use run_list::Runs;
use std::alloc::Global;

/// The first slot with a number that is no flow's, and the least such number in it.
///
/// Where all numbers are below the number of flows there is none, and no walk is made.
pub(crate) fn find_stranger(
    alloc: Global,
    flows: &[Flow],
    runs: &Runs,
) -> Result<Option<(u64, u32)>, NoMemory>
    requires { IsKept runs.now }
    ensures { IfOk result (λ stranger. MatchOption stranger (NamesFlows (length flows.now) (slots_in runs.now))
        (λ p. IsFirstNoFlow flows.now (slots_in runs.now) p.0 p.1)) }
{
    if runs.bound() <= flows.len() as u64 {
        return Ok(None);
    }
    let mut walk = runs.walk(alloc)?;
    let mut slot = 0;
    for place in 0..runs.count() {
        let slots = walk.enter();
        // No run before had such a number, so each one of this run came with it.
        if let Some(flow) = first_from(walk.come(), flows.len()) {
            return Ok(Some((slot + 1, flow)));
        }
        slot += slots;
    }
    Ok(None)
}

/// The first number of the list that is at least the limit.
fn first_from(numbers: &[u32], limit: usize) -> Option<u32>
    requires { IsStrictlyIncreasing numbers.now }
    ensures { MatchOption result (All (λ f. f < limit) numbers.now) (λ f. Contains numbers.now f × (limit ≤ f) ×
        ((g : ℕ) → Contains numbers.now g → limit ≤ g → f ≤ g)) }
{
    for number in numbers {
        if *number as usize >= limit {
            return Some(*number);
        }
    }
    None
}

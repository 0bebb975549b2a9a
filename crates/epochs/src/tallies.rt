//! What flows and coflows owe, as units are spent.
ghost use Rattle.std.specs.Prelude.{◌≡◌, ◌-◌, ◌<◌, ◌≤◌, ℕ, if◌then◌else◌, All, IfOk, length, map, slice_index, sum};
ghost use Rattle.std.specs.List.Sorted.{IsStrictlyIncreasing};
ghost use Rattle.coflow_units.specs.declared.limits.TheConstants.{MAX_UNITS};
ghost use Rattle.coflow_units.specs.declared.fabric.Flow.{Flow};
ghost use Rattle.coflow_units.specs.Schedule.{holds};
ghost use Rattle.epochs.specs.Tallies.{IsTallied};

use coflow_units::{Flow, NoMemory};
use std::alloc::Global;

/// The units of the flows, by number. The error is want of memory.
pub fn units_of_flows(alloc: Global, flows: &[Flow]) -> Result<Vec<u64>, NoMemory>
    ensures { IfOk result (λ left. left.items ≡ map (λ (x : Flow). x.units) flows.now) }
{
    let mut left = Vec::new(alloc);
    for flow in flows {
        left.push(flow.units)?;
    }
    Ok(left)
}

/// What so many coflows owe, by number: each what its flows have left. The error is want of memory.
pub fn units_of_coflows(
    alloc: Global,
    flows: &[Flow],
    left: &[u64],
    coflows: u32,
) -> Result<Vec<u64>, NoMemory>
    requires len { length left.now ≡ length flows.now }
    requires within { All (λ (x : Flow). x.coflow < coflows) flows.now }
    requires units { sum left.now ≤ MAX_UNITS }
    ensures each { IfOk result (λ owed. length owed.items ≡ coflows) }
    ensures tallied { IfOk result (λ owed. IsTallied flows.now left.now owed.items) }
{
    let mut owed = vec![in alloc; 0u64; coflows as usize]?;
    'flows: for number in 0..flows.len() {
        owed[flows[number].coflow as usize] += left[number];
    }
    Ok(owed)
}

/// Takes so many units of each of these flows.
pub fn spend(left: &mut Vec<u64>, owed: &mut Vec<u64>, flows: &[Flow], granted: &[u32], slots: u64)
    requires tallied { IsTallied flows.now left.old.items owed.old.items }
    requires within { All (λ (x : Flow). x.coflow < length owed.old.items) flows.now }
    requires flow { All (λ f. f < length flows.now) granted.now }
    requires ascending { IsStrictlyIncreasing granted.now }
    requires owes { All (λ f. slots ≤ slice_index left.old.items f) granted.now }
    ensures tallied { IsTallied flows.now left.new.items owed.new.items }
    ensures each { length owed.new.items ≡ length owed.old.items }
    ensures left { (f : ℕ) → slice_index left.new.items f
        ≡ slice_index left.old.items f - (if holds granted.now f then slots else 0) }
{
    'granted: for flow in granted {
        let number = *flow as usize;
        left[number] -= slots;
        owed[flows[number].coflow as usize] -= slots;
    }
}

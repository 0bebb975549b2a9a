//! The curve of completed coflows.
ghost use Rattle.std.specs.Prelude.{◌<◌, IfOk, length};
ghost use Rattle.std.specs.List.Sorted.{IsNonDecreasingBy};
ghost use Rattle.picture.specs.Curve.{ComesAgain, IsCurve};

use crate::value::Step;
use coflow_units::NoMemory;
use std::alloc::Global;

/// The curve of coflows that are completed in the given slots: a step for each slot in which one is completed,
/// ascending, with how many are completed by then. A coflow without flows is completed in slot 0.
///
/// `NoMemory` is want of memory.
pub fn curve_of(alloc: Global, ends: &[u64]) -> Result<Vec<Step>, NoMemory>
    ensures { IfOk result (λ steps. IsCurve ends.now steps.items) }
{
    let mut sorted = Vec::from_slice(alloc, ends)?;
    sorted.sort_unstable();
    let steps = steps_of(alloc, &sorted)?;
    Ok(steps)
}

/// The curve of slots that stand in order.
fn steps_of(alloc: Global, ends: &[u64]) -> Result<Vec<Step>, NoMemory>
    requires sorted { IsNonDecreasingBy (λ end. end) ends.now }
    ensures { IfOk result (λ steps. IsCurve ends.now steps.items) }
{
    let mut steps = Vec::new(alloc);
    for place in 0..ends.len() {
        if comes_again(ends, place) {
            continue;
        }
        steps.push(Step {
            slot: ends[place],
            done: place as u64 + 1,
        })?;
    }
    Ok(steps)
}

/// Whether the next slot is equal to the one at the place.
fn comes_again(ends: &[u64], place: usize) -> bool
    requires sorted { IsNonDecreasingBy (λ end. end) ends.now }
    requires place { place < length ends.now }
    ensures { ComesAgain ends.now place result }
{
    if place + 1 == ends.len() {
        return false;
    }
    if ends[place] < ends[place + 1] {
        return false;
    }
    true
}

//! Ports that two flows of one slot use.
ghost use Rattle.std.specs.Prelude.{◌<◌, ◌≤◌, ◌≡◌, ◌⊎◌, ◌↔◌, ℕ, All, IfOk, IsTrue, List, MatchOption, false, length};
ghost use Rattle.std.specs.List.{slice_index_or};
ghost use Rattle.std.specs.List.Sorted.{IsStrictlyIncreasing};
ghost use Rattle.coflow_units.specs.declared.fabric.Flow.{Flow};
ghost use Rattle.coflow_units.specs.Flows.{end_at};
ghost use Rattle.coflow_units.specs.Schedule.{IsClear};
ghost use Rattle.schedule_model.specs.RunList.{IsKept, NamesFlows, slots_in};
ghost use Rattle.schedule_model.specs.Repeat.{Follows, IsTaken, Marks, Repeats, Uses};
ghost use Rattle.schedule_model.specs.Fault.{IsFirstClash};

use crate::ports::{port_at, port_count};
use coflow_units::{Flow, NoMemory, Port, Side};
use run_list::Runs;
use std::alloc::Global;

/// The first slot in which two flows use one port, and the first such port in it.
///
/// From run to run the tables of used ports change only at those of the flows that left and of the new ones.
pub(crate) fn find_clash(
    alloc: Global,
    flows: &[Flow],
    runs: &Runs,
) -> Result<Option<(u64, Port)>, NoMemory>
    requires kept { IsKept runs.now }
    requires names { NamesFlows (length flows.now) (slots_in runs.now) }
    ensures { IfOk result (λ clash. MatchOption clash (All (IsClear flows.now) (slots_in runs.now))
        (λ p. IsFirstClash flows.now (slots_in runs.now) p.0 p.1)) }
{
    let ports = port_count(flows);
    let mut ingress = vec![in alloc; false; ports]?;
    let mut egress = vec![in alloc; false; ports]?;
    let mut walk = runs.walk(alloc)?;
    let mut slot = 0;
    for place in 0..runs.count() {
        let slots = walk.enter();
        let left = walk.gone();
        let new = walk.come();
        if let Some(number) = least_repeat(flows, left, new, Side::Ingress, &mut ingress) {
            let side = Side::Ingress;
            return Ok(Some((slot + 1, Port { side, number })));
        }
        if let Some(number) = least_repeat(flows, left, new, Side::Egress, &mut egress) {
            let side = Side::Egress;
            return Ok(Some((slot + 1, Port { side, number })));
        }
        slot += slots;
    }
    Ok(None)
}

/// The least number of a port that two flows of a slot use on the side. The table has the ports that are used in the
/// slot before it, and then those that are used in it.
fn least_repeat(
    flows: &[Flow],
    left: &[u32],
    new: &[u32],
    side: Side,
    used: &mut [bool],
) -> Option<u32>
    requires ascending { IsStrictlyIncreasing new.now }
    requires left { All (λ f. f < length flows.now) left.now }
    requires new { All (λ f. f < length flows.now) new.now }
    requires ports { All (λ (x : Flow). end_at side x < length used.old) flows.now }
    ensures used { (before slot : List ℕ) → Follows flows.now side before slot left.now new.now used.old →
        Marks flows.now side slot used.new }
    ensures least { (before slot : List ℕ) → Follows flows.now side before slot left.now new.now used.old →
        MatchOption result ((p : ℕ) → Repeats flows.now side slot p →
        ⊥) (λ p. Repeats flows.now side slot p × ((q : ℕ) → Repeats flows.now side slot q → p ≤ q)) }
{
    free_ports(flows, left, side, used);
    take_ports(flows, new, side, used)
}

/// Takes the marks from the ports that the flows use on the side.
fn free_ports(flows: &[Flow], left: &[u32], side: Side, used: &mut [bool])
    requires names { All (λ f. f < length flows.now) left.now }
    requires ports { All (λ (x : Flow). end_at side x < length used.old) flows.now }
    ensures { (p : ℕ) → p < length used.old →
        IsTrue (slice_index_or used.new p false)
        ↔ (IsTrue (slice_index_or used.old p false) × (Uses flows.now side left.now p → ⊥)) }
{
    for flow in left {
        let number = port_at(side, &flows[*flow as usize]);
        used[number as usize] = false;
    }
}

/// Marks the ports that the flows use on the side, and answers the least of them that had a mark already.
fn take_ports(flows: &[Flow], new: &[u32], side: Side, used: &mut [bool]) -> Option<u32>
    requires ascending { IsStrictlyIncreasing new.now }
    requires names { All (λ f. f < length flows.now) new.now }
    requires ports { All (λ (x : Flow). end_at side x < length used.old) flows.now }
    ensures used { (p : ℕ) → p < length used.old →
        IsTrue (slice_index_or used.new p false)
        ↔ (IsTrue (slice_index_or used.old p false) ⊎ Uses flows.now side new.now p) }
    ensures least { MatchOption result ((p : ℕ) → IsTaken flows.now side used.old new.now p → ⊥)
        (λ p. IsTaken flows.now side used.old new.now p × ((q : ℕ) → IsTaken flows.now side used.old new.now q →
        p ≤ q)) }
{
    let mut least = None;
    for flow in new {
        let number = port_at(side, &flows[*flow as usize]);
        if used[number as usize] {
            least = Some(lesser(least, number));
            continue;
        }
        used[number as usize] = true;
    }
    least
}

/// The lesser of the two numbers.
fn lesser(least: Option<u32>, number: u32) -> u32
    ensures within { result ≤ number }
    ensures cases { MatchOption least (result ≡ number)
        (λ before. (result ≤ before) × ((result ≡ before) ⊎ (result ≡ number))) }
{
    match least {
        Some(before) => before.min(number),
        None => number,
    }
}

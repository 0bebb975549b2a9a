//! The egress ports to which a coflow sends.
ghost use Rattle.std.specs.Prelude.{◌≡◌, ◌≢◌, ℕ, ◌+◌, ◌^◌, ◌<◌, ◌≤◌, All, IfOk, length, slice_index};
ghost use Rattle.coflow_units.specs.declared.limits.TheConstants.{MAX_UNITS};
ghost use Rattle.coflow_units.specs.Trace.{IsCoflowLine};
ghost use Rattle.flow_table.specs.declared.targets.Target.{Target};
ghost use Rattle.flow_table.specs.declared.spots.Spot.{Spot};
ghost use Rattle.flow_table.specs.Spots.{IsByLocation};
ghost use Rattle.flow_table.specs.Targets.{AreTargets, whole_to};
ghost use Rattle.flow_table.specs.Units.{units_of_line};

use crate::spots::{Spot, end_of};
use crate::units::units_of_reducer;
use coflow_units::{CoflowLine, UnitSize};
use std::alloc::{AllocError, Global};

/// An egress with a reducer of a coflow.
#[derive(Clone, Copy)]
pub(crate) struct Target {
    pub(crate) egress: u32,
    /// The units that each mapper sends to it, before the rests are shared.
    pub(crate) whole: u64,
    /// The rests of its reducers stand from this index up to the next one.
    pub(crate) first: usize,
    pub(crate) end: usize,
}

/// The targets of a coflow, by egress, with the rests that stand by location.
pub(crate) fn targets_of(
    alloc: Global,
    line: &CoflowLine,
    unit: UnitSize,
    ports: u32,
    rests: &[Spot],
) -> Result<Vec<Target>, AllocError>
    requires line { (number : ℕ) × (ports ≡ number + 1) × IsCoflowLine number line.now }
    requires units { units_of_line unit.megabytes line.now ≤ MAX_UNITS }
    requires sorted { IsByLocation rests.now }
    requires within { All (λ (s : Spot). s.location < ports) rests.now }
    ensures targets { IfOk result (λ targets. AreTargets rests.now targets.items) }
    ensures wholes { IfOk result (λ targets. All (λ (t : Target). t.whole ≡ whole_to unit.megabytes line.now t.egress)
        targets.items) }
    ensures all { IfOk result (λ targets. (egress : ℕ) → All (λ (t : Target). t.egress ≢ egress) targets.items →
        All (λ (s : Spot). s.location ≢ egress) rests.now) }
{
    let wholes = wholes_of(alloc, line, unit, ports)?;
    let mut targets = Vec::new(alloc);
    let mut first = 0;
    'targets: while first < rests.len() {
        let egress = rests[first].location;
        let end = end_of(rests, first, egress);
        targets.push(Target {
            egress,
            whole: wholes[egress as usize],
            first,
            end,
        })?;
        first = end;
    }
    Ok(targets)
}

/// The units that each mapper sends to each location, before the rests are shared.
fn wholes_of(
    alloc: Global,
    line: &CoflowLine,
    unit: UnitSize,
    ports: u32,
) -> Result<Vec<u64>, AllocError>
    requires line { (number : ℕ) × (ports ≡ number + 1) × IsCoflowLine number line.now }
    requires units { units_of_line unit.megabytes line.now ≤ MAX_UNITS }
    ensures count { IfOk result (λ wholes. length wholes.items ≡ ports) }
    ensures wholes { IfOk result (λ wholes. (egress : ℕ) → egress < ports →
        slice_index wholes.items egress ≡ whole_to unit.megabytes line.now egress) }
{
    let mappers = line.mappers.as_slice().len() as u64;
    let mut wholes = vec![in alloc; 0; ports as usize]?;
    for reducer in line.reducers.as_slice() {
        wholes[reducer.location as usize] += units_of_reducer(reducer, unit) / mappers;
    }
    Ok(wholes)
}

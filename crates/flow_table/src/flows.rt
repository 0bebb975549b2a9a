//! The flows of a trace.
ghost use Rattle.std.specs.Prelude.{◌≡◌, ℕ, ◌+◌, ◌*◌, ◌^◌, ◌<◌, ◌≤◌, All, IfErr, IfOk, OnOk, length};
ghost use Rattle.coflow_units.specs.declared.limits.TheConstants.{MAX_FLOWS, MAX_MAPPERS, MAX_MEGABYTES, MAX_UNITS};
ghost use Rattle.coflow_units.specs.Trace.{IsCoflowLine, IsTrace};
ghost use Rattle.flow_table.specs.declared.spots.Spot.{Spot};
ghost use Rattle.flow_table.specs.FlowsOf.{HaveUnitsBefore, IsFlowsOf, IsTooMany};
ghost use Rattle.flow_table.specs.Sent.{sent, sent_by};
ghost use Rattle.flow_table.specs.Spots.{IsAscending, IsByLocation, pairs, spots_at};
ghost use Rattle.flow_table.specs.Stops.{StopsFor};
ghost use Rattle.flow_table.specs.Targets.{AreTargets, SendsTo, own_rests};
ghost use Rattle.flow_table.specs.Units.{units_in_all, units_of_line};

use crate::below::pairs_below;
use crate::spots::{Spot, end_of, mapper_places, reducer_rests};
use crate::stop::Stop;
use crate::targets::{Target, targets_of};
use coflow_units::{CoflowLine, Flow, MAX_FLOWS, Trace, UnitSize};
use std::alloc::Global;

/// The flows of a trace, by coflow, ingress and egress.
pub(crate) fn flows_of(alloc: Global, trace: &Trace, unit: UnitSize) -> Result<Vec<Flow>, Stop>
    requires trace { IsTrace trace.now }
    requires units { units_in_all trace.now unit.megabytes ≤ MAX_UNITS }
    ensures flows { IfOk result (λ flows. IsFlowsOf trace.now unit.megabytes flows.items) }
    ensures few { IfOk result (λ flows. length flows.items ≤ MAX_FLOWS) }
    ensures full { IfErr result (StopsFor (IsTooMany (sent trace.now unit.megabytes))) }
{
    let ports = trace.number + 1;
    let mut flows = Vec::new(alloc);
    for (coflow, line) in trace.coflows.as_slice().iter().enumerate() {
        push_coflow(alloc, &mut flows, coflow as u32, line, unit, ports)?;
    }
    Ok(flows)
}

/// Appends the flows of a coflow.
fn push_coflow(
    alloc: Global,
    flows: &mut Vec<Flow>,
    coflow: u32,
    line: &CoflowLine,
    unit: UnitSize,
    ports: u32,
) -> Result<(), Stop>
    requires line { (number : ℕ) × (ports ≡ number + 1) × IsCoflowLine number line.now }
    requires units { units_of_line unit.megabytes line.now ≤ MAX_UNITS }
    requires few { length flows.old.items ≤ MAX_FLOWS }
    ensures few_still { OnOk result (length flows.new.items ≤ MAX_FLOWS) }
    ensures pushed { OnOk result ((sends : ℕ → ℕ → ℕ → ℕ) →
        ((i e : ℕ) → sends coflow i e ≡ sent_by unit.megabytes line.now i e) →
        HaveUnitsBefore sends coflow 0 0 flows.old.items → HaveUnitsBefore sends (coflow + 1) 0 0 flows.new.items) }
    ensures full { IfErr result (StopsFor ((sends : ℕ → ℕ → ℕ → ℕ) →
        ((i e : ℕ) → sends coflow i e ≡ sent_by unit.megabytes line.now i e) →
        HaveUnitsBefore sends coflow 0 0 flows.old.items → IsTooMany sends)) }
{
    let places = mapper_places(alloc, line)?;
    let rests = reducer_rests(alloc, line, unit)?;
    let targets = targets_of(alloc, line, unit, ports, &rests)?;
    push_sources(flows, coflow, &places, &targets, &rests)?;
    Ok(())
}

/// Appends the flows of a coflow, by ingress.
fn push_sources(
    flows: &mut Vec<Flow>,
    coflow: u32,
    places: &[Spot],
    targets: &[Target],
    rests: &[Spot],
) -> Result<(), Stop>
    requires few { length flows.old.items ≤ MAX_FLOWS }
    requires few_places { length places.now ≤ MAX_MAPPERS }
    requires few_rests { length rests.now ≤ MAX_MAPPERS }
    requires sorted { IsByLocation places.now }
    requires targets { AreTargets rests.now targets.now }
    ensures few_still { OnOk result (length flows.new.items ≤ MAX_FLOWS) }
    ensures pushed { OnOk result ((sends : ℕ → ℕ → ℕ → ℕ) →
        ((i : ℕ) → SendsTo (sends coflow i) (spots_at places.now i) targets.now rests.now) →
        HaveUnitsBefore sends coflow 0 0 flows.old.items → HaveUnitsBefore sends (coflow + 1) 0 0 flows.new.items) }
    ensures full { IfErr result (StopsFor ((sends : ℕ → ℕ → ℕ → ℕ) →
        ((i : ℕ) → SendsTo (sends coflow i) (spots_at places.now i) targets.now rests.now) →
        HaveUnitsBefore sends coflow 0 0 flows.old.items → IsTooMany sends)) }
{
    let mut first = 0;
    'sources: while first < places.len() {
        let ingress = places[first].location;
        let end = end_of(places, first, ingress);
        push_source(flows, coflow, ingress, &places[first..end], targets, rests)?;
        first = end;
    }
    Ok(())
}

/// Appends the flows of a coflow from an ingress, where these mappers are.
fn push_source(
    flows: &mut Vec<Flow>,
    coflow: u32,
    ingress: u32,
    places: &[Spot],
    targets: &[Target],
    rests: &[Spot],
) -> Result<(), Stop>
    requires few { length flows.old.items ≤ MAX_FLOWS }
    requires few_places { length places.now ≤ MAX_MAPPERS }
    requires few_rests { length rests.now ≤ MAX_MAPPERS }
    requires ascending { IsAscending places.now }
    requires targets { AreTargets rests.now targets.now }
    ensures few_still { OnOk result (length flows.new.items ≤ MAX_FLOWS) }
    ensures pushed { OnOk result ((sends : ℕ → ℕ → ℕ → ℕ) →
        SendsTo (sends coflow ingress) places.now targets.now rests.now →
        HaveUnitsBefore sends coflow ingress 0 flows.old.items →
        HaveUnitsBefore sends coflow (ingress + 1) 0 flows.new.items) }
    ensures full { IfErr result (StopsFor ((sends : ℕ → ℕ → ℕ → ℕ) →
        SendsTo (sends coflow ingress) places.now targets.now rests.now →
        HaveUnitsBefore sends coflow ingress 0 flows.old.items → IsTooMany sends)) }
{
    for target in targets {
        let units = units_to(places, target, rests);
        if units == 0 {
            continue;
        }
        if flows.len() == MAX_FLOWS as usize {
            return Err(Stop::Full);
        }
        flows.push(Flow {
            coflow,
            ingress,
            egress: target.egress,
            units,
        })?;
    }
    Ok(())
}

/// What the mappers at these places send to the target.
fn units_to(places: &[Spot], target: &Target, rests: &[Spot]) -> u64
    requires few_places { length places.now ≤ MAX_MAPPERS }
    requires few_rests { length rests.now ≤ MAX_MAPPERS }
    requires ascending { IsAscending places.now }
    requires range { (target.now.first ≤ target.now.end) × (target.now.end ≤ length rests.now) }
    requires own_ascend { IsAscending (own_rests rests.now target.now) }
    requires whole { target.now.whole ≤ MAX_MEGABYTES }
    ensures { result ≡ target.now.whole * length places.now + pairs places.now (own_rests rests.now target.now) }
{
    let own = &rests[target.first..target.end];
    target.whole * places.len() as u64 + pairs_below(places, own)
}

//! Whether a schedule keeps an order and leaves no port idle that could serve.
ghost use Rattle.std.specs.Prelude.{◌≡◌, ◌<◌, ◌≤◌, ◌↔◌, ◌⊎◌, ℕ, All, ◌==◌, IfOk, IsTrue, length, position, map, slice_index};
ghost use Rattle.coflow_units.specs.declared.fabric.Flow.{Flow};
ghost use Rattle.coflow_units.specs.Flows.{coflow_of, egress_of, end_at, ingress_of, units_of};
ghost use Rattle.coflow_units.specs.Grants.{place_in};
ghost use Rattle.coflow_units.specs.Patient.{IsPatient, IsServedOrWaits};
ghost use Rattle.schedule_model.specs.RunList.{NamesFlows};
ghost use Rattle.schedule_model.specs.Waiting.{ServesBy};

use crate::counts::add_run;
use crate::ports::{port_at, port_count};
use crate::schedule::Schedule;
use coflow_units::{Flow, NoMemory, Side};
use std::alloc::Global;

/// Tests whether a schedule is patient for an order of coflows: in each slot each flow that has units left is served,
/// or one of its ports serves a coflow no later in the order.
///
/// The numbers in the schedule are flows'. A coflow that is not in the order comes after all that are. It takes two
/// words of memory for each flow, two for each port number up to the greatest of the flows, and room for the most flows
/// that a run has, four times; `NoMemory` says that these were not to be had.
///
/// In a run a flow that is not served keeps its units, so the test at the first slot of a run is the test at each of
/// them.
///
/// Sincronia calls such schedules order-preserving and work-conserving (Agarwal, Rajakrishnan, Narayan, Agarwal, Shmoys
/// and Vahdat, "Sincronia: near-optimal network design for coflows", SIGCOMM 2018).
pub fn is_patient(
    alloc: Global,
    flows: &[Flow],
    order: &[u32],
    schedule: &Schedule,
) -> Result<bool, NoMemory>
    requires { NamesFlows (length flows.now) schedule.now }
    ensures { IfOk result (λ answer. IsTrue answer ↔ IsPatient flows.now order.now schedule.now) }
{
    let places = places_of(alloc, flows, order)?;
    let ports = port_count(flows);
    let mut ingress = vec![in alloc; 0usize; ports]?;
    let mut egress = vec![in alloc; 0usize; ports]?;
    let mut counts = vec![in alloc; 0u64; flows.len()]?;
    let runs = schedule.kept();
    let mut walk = runs.walk(alloc)?;
    for place in 0..runs.count() {
        let slots = walk.enter();
        let slot = walk.flows();
        if !waits_well(
            flows,
            order,
            &places,
            &counts,
            slot,
            &mut ingress,
            &mut egress,
        ) {
            return Ok(false);
        }
        add_run(&mut counts, slots, slot);
    }
    Ok(true)
}

/// The place in the order of each flow's coflow.
fn places_of(alloc: Global, flows: &[Flow], order: &[u32]) -> Result<Vec<usize>, NoMemory>
    ensures { IfOk result (λ places. places.items ≡ map (λ (x : Flow). place_in order.now x.coflow) flows.now) }
{
    let mut places = Vec::with_capacity(alloc, flows.len())?;
    let mut last = 0;
    let mut place = place_of(order, 0);
    for flow in flows {
        if flow.coflow != last {
            last = flow.coflow;
            place = place_of(order, last);
        }
        let Ok(()) = places.push(place) else {
            return Err(NoMemory);
        };
    }
    Ok(places)
}

/// The place of the coflow in the order, or the length of the order where it is not there.
fn place_of(order: &[u32], coflow: u32) -> usize
    ensures { result ≡ place_in order.now coflow }
{
    find_place(order, coflow).unwrap_or(order.len())
}

fn find_place(order: &[u32], coflow: u32) -> Option<usize>
    ensures { result ≡ position (λ c. c == coflow) order.now }
{
    order.iter().position(|c| *c == coflow)
}

/// Each flow that has units left stands in the slot, or one of its ports serves there a coflow no later in the order.
fn waits_well(
    flows: &[Flow],
    order: &[u32],
    places: &[usize],
    counts: &[u64],
    slot: &[u32],
    ingress: &mut [usize],
    egress: &mut [usize],
) -> bool
    requires names { All (λ f. f < length flows.now) slot.now }
    requires places { places.now ≡ map (λ (x : Flow). place_in order.now x.coflow) flows.now }
    requires counts { length counts.now ≡ length flows.now }
    requires ingress { All (λ (x : Flow). x.ingress < length ingress.old) flows.now }
    requires egress { All (λ (x : Flow). x.egress < length egress.old) flows.now }
    ensures { IsTrue result
        ↔ ((f : ℕ) → f < length flows.now → slice_index counts.now f < units_of flows.now f →
        IsServedOrWaits flows.now order.now slot.now f) }
{
    let none = order.len() + 1;
    note_places(flows, places, slot, Side::Ingress, none, ingress);
    note_places(flows, places, slot, Side::Egress, none, egress);
    all_wait(flows, places, counts, ingress, egress)
}

/// Writes at each port of the side the least place that a flow of the slot has there, or `none` where no flow of the
/// slot uses the port.
fn note_places(
    flows: &[Flow],
    places: &[usize],
    slot: &[u32],
    side: Side,
    none: usize,
    least: &mut [usize],
)
    requires names { All (λ f. f < length flows.now) slot.now }
    requires same { length places.now ≡ length flows.now }
    requires ports { All (λ (x : Flow). end_at side x < length least.old) flows.now }
    ensures { (p m : ℕ) → p < length least.old → m < none →
        (slice_index least.new p ≤ m) ↔ ServesBy flows.now places.now side slot.now p m }
{
    least.fill(none);
    for flow in slot {
        let port = port_at(side, &flows[*flow as usize]) as usize;
        least[port] = least[port].min(places[*flow as usize]);
    }
}

/// Each flow that has units left has a port at which the least place is no greater than its own.
fn all_wait(
    flows: &[Flow],
    places: &[usize],
    counts: &[u64],
    ingress: &[usize],
    egress: &[usize],
) -> bool
    requires same_places { length places.now ≡ length flows.now }
    requires same_counts { length counts.now ≡ length flows.now }
    requires ingress { All (λ (x : Flow). x.ingress < length ingress.now) flows.now }
    requires egress { All (λ (x : Flow). x.egress < length egress.now) flows.now }
    ensures { IsTrue result
        ↔ ((f : ℕ) → f < length flows.now → slice_index counts.now f < units_of flows.now f →
        (slice_index ingress.now (ingress_of flows.now f) ≤ slice_index places.now f) ⊎
        (slice_index egress.now (egress_of flows.now f) ≤ slice_index places.now f)) }
{
    for (number, flow) in flows.iter().enumerate() {
        let place = places[number];
        if counts[number] >= flow.units {
            continue;
        }
        if ingress[flow.ingress as usize] <= place {
            continue;
        }
        if egress[flow.egress as usize] <= place {
            continue;
        }
        return false;
    }
    true
}

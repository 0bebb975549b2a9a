//! The serving of an order, run after run.
ghost use Rattle.std.specs.Prelude.{◌≡◌, ℕ, ◌+◌, ◌<◌, ◌≤◌, ◌^◌, [], All, Contains, IfOk, length, map, sum_by};
ghost use Rattle.coflow_units.specs.declared.limits.TheConstants.{MAX_FLOWS, MAX_UNITS};
ghost use Rattle.coflow_units.specs.declared.fabric.Flow.{Flow};
ghost use Rattle.coflow_units.specs.Flows.{IsDistinct, coflow_of};
ghost use Rattle.coflow_units.specs.Served.{IsServed, left_after};
ghost use Rattle.coflow_units.specs.Starts.{IsStarts};
ghost use Rattle.matching.specs.Matching.{IsSettled};

use coflow_units::{Flow, NoMemory};
use flow_table::Table;
use matching::Matching;
use schedule_model::Schedule;
use std::alloc::Global;

/// The schedule that serves all flows of a table in an order of its coflows: in each slot the flows that the order
/// grants for the units left then. This is the order-preserving, work-conserving schedule of Sincronia (Agarwal,
/// Rajakrishnan, Narayan, Agarwal, Shmoys and Vahdat, "Sincronia: near-optimal network design for coflows", SIGCOMM
/// 2018), in slots of one unit.
///
/// `order` has each coflow of the table once. The grants of a slot stay as they are until the first of their flows has
/// no units left, so they are served for a whole run of slots at a time, and then repaired where flows ended. The error
/// is want of memory.
pub fn simulate(alloc: Global, table: &Table, order: &[u32]) -> Result<Schedule, NoMemory>
    requires distinct { IsDistinct order.now }
    requires known { All (λ c. c < length table.now.ids) order.now }
    requires all { (c : ℕ) → c < length table.now.ids → Contains order.now c }
    ensures { IfOk result (λ schedule. IsServed table.now.flows order.now schedule) }
{
    let schedule = serve(alloc, table.flows(), table.starts(), table.ports(), order)?;
    Ok(schedule)
}

/// The schedule that serves the flows in the order, run after run. The arguments are those that a table of flows tells.
fn serve(
    alloc: Global,
    flows: &[Flow],
    starts: &[u32],
    ports: u32,
    order: &[u32],
) -> Result<Schedule, NoMemory>
    requires starts { IsStarts flows.now starts.now }
    requires ingress { All (λ (x : Flow). x.ingress < ports) flows.now }
    requires egress { All (λ (x : Flow). x.egress < ports) flows.now }
    requires few_ports { ports + ports < 2 ^ 32 }
    requires few { length flows.now ≤ MAX_FLOWS }
    requires units { sum_by (λ (x : Flow). x.units) flows.now ≤ MAX_UNITS }
    requires distinct { IsDistinct order.now }
    requires known { All (λ c. c + 1 < length starts.now) order.now }
    requires all { (f : ℕ) → f < length flows.now → Contains order.now (coflow_of flows.now f) }
    ensures { IfOk result (λ schedule. IsServed flows.now order.now schedule) }
{
    let mut grants = first_grants(alloc, flows, starts, ports, order)?;
    let mut schedule = Schedule::new(alloc);
    while grants.count() > 0 {
        let length = grants.least_left();
        schedule.push_run(length, grants.flows())?;
        grants.take_run(length);
        grants.repair();
    }
    Ok(schedule)
}

/// The grants of the first slot.
fn first_grants(
    alloc: Global,
    flows: &[Flow],
    starts: &[u32],
    ports: u32,
    order: &[u32],
) -> Result<Matching, NoMemory>
    requires starts { IsStarts flows.now starts.now }
    requires ingress { All (λ (x : Flow). x.ingress < ports) flows.now }
    requires egress { All (λ (x : Flow). x.egress < ports) flows.now }
    requires few_ports { ports + ports < 2 ^ 32 }
    requires few { length flows.now ≤ MAX_FLOWS }
    requires distinct { IsDistinct order.now }
    requires known { All (λ c. c + 1 < length starts.now) order.now }
    ensures { IfOk result (λ grants. IsSettled flows.now order.now (left_after flows.now []) grants) }
{
    let mut grants = Matching::with_room(alloc, flows.len() as u32, ports)?;
    let units = units_of(alloc, flows)?;
    grants.begin(flows, starts, order, &units);
    Ok(grants)
}

/// The units of each flow.
fn units_of(alloc: Global, flows: &[Flow]) -> Result<Vec<u64>, NoMemory>
    ensures { IfOk result (λ units. units.items ≡ map (λ (x : Flow). x.units) flows.now) }
{
    let units = flows
        .iter()
        .map(|flow| flow.units)
        .collect::<Vec<u64>>(alloc)?;
    Ok(units)
}

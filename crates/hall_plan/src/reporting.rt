//! The plan of a table, served by a hall, as a report.
ghost use Rattle.std.specs.Prelude.{◌≡◌, ℕ, ◌≤◌, [], All, Err, IfOk, length};
ghost use Rattle.coflow_units.specs.declared.limits.TheConstants.{MAX_WEIGHT};
ghost use Rattle.flow_table.specs.Table.{IsTable, instance_of};
ghost use Rattle.hall_plan.specs.declared.answer.PlanFault.TheVariants.{WireFault};
ghost use Rattle.hall_plan.specs.Journals.{HasRoom};
ghost use Rattle.journal.specs.State.{IsOpening};
ghost use Rattle.plans.specs.PlanReport.{IsPlanOf};
ghost use Rattle.report_text.specs.Report.{HasSmallNumbers, HasWeights, IsReport};
ghost use Rattle.hall_plan.specs.Sent.{SendsAll, SendsPart, StopsShort};

use crate::answer::{HallPlan, PlanFault};
use crate::planning::plan;
use coflow_units::{Items, NoMemory};
use flow_table::Table;
use master_core::Master;
use outside::Wire;
use plans::report_of;
use report_text::Report;
use std::alloc::Global;
use std::sync::Wait;
use std::thread::Threads;

/// The report of the plan of the coflows of a table, whose units were sent: a hall registers all coflows in number
/// order, publishes their order once, and runs until nothing is left. So many agents beside each other, at most one a
/// port and started once for all runs, send the units, each on the wire of its ingress port; further wires are left
/// alone. While it runs the agents have the wires, and at every answer the vector has them again, in their order. The
/// report is the same for any number of agents. A text can have it, so it may be written and read back. `weights` has
/// the weight of each coflow, from 1 to 2^32.
///
/// `WireFault` comes only where the count of that port's wire rose in this call. It is the least port at which a unit
/// of the last run is missing, and no further run is opened after it. `NoMemory` is want of memory. At every answer
/// what was sent are units of the plan's schedule, none twice, and where there is a report all of them.
pub fn served_plan<R: Threads + Wait + Sync, W: Wire + Send>(
    alloc: Global,
    rt: &R,
    table: &Table,
    weights: &[u64],
    agents: u32,
    wires: &mut Vec<W>,
) -> Result<Report, PlanFault>
    requires count { length weights.now ≡ length table.now.ids }
    requires least { All (λ w. 1 ≤ w) weights.now }
    requires weights { All (λ w. w ≤ MAX_WEIGHT) weights.now }
    requires agents { 1 ≤ agents }
    requires wires { table.now.ports ≤ length wires.old.items }
    ensures plan { IfOk result (λ report.
        (planned : IsPlanOf (instance_of table.now weights.now) table.now.ids report) ×
        SendsAll W.runs wires.old.items wires.new.items table.now planned.slots) }
    ensures weights { IfOk result HasWeights }
    ensures report { IfOk result IsReport }
    ensures small { IfOk result HasSmallNumbers }
    ensures sent { SendsPart W.runs wires.old.items wires.new.items table.now weights.now }
    ensures fault { (port : ℕ) → result ≡ Err (WireFault port) →
        StopsShort W.faults W.runs wires.old.items wires.new.items port table.now weights.now }
{
    let master = master_of(alloc, table, weights)?;
    let HallPlan { places, schedule } = plan(alloc, rt, master, agents, wires)?;
    let report = report_of(alloc, table, weights, places.as_slice(), schedule)?;
    Ok(report)
}

/// A new master of a copy of the table, whose journal has room for a plan.
fn master_of(alloc: Global, table: &Table, weights: &[u64]) -> Result<Master, NoMemory>
    requires count { length weights.now ≡ length table.now.ids }
    requires least { All (λ w. 1 ≤ w) weights.now }
    requires weights { All (λ w. w ≤ MAX_WEIGHT) weights.now }
    ensures fits { IsTable table.now }
    ensures table { IfOk result (λ m. m.opening.table ≡ table.now) }
    ensures weights { IfOk result (λ m. m.opening.weights ≡ weights.now) }
    ensures opening { IfOk result (λ m. IsOpening m.opening) }
    ensures room { IfOk result (λ m. HasRoom m.opening) }
    ensures journal { IfOk result (λ m. m.journal ≡ []) }
{
    let limit = table.coflows() + 2 * table.flows().len() as u32 + 2;
    let weights = Items::from_vec(Vec::from_slice(alloc, weights)?);
    let copy = table.copy(alloc)?;
    let master = Master::new(alloc, copy, weights, limit)?;
    Ok(master)
}

//! The plan of a command's input, served on the wires of the ports.
ghost use Rattle.std.specs.Prelude.{◌≡◌, ℕ, ◌<◌, ◌≤◌, All, Err, IfOk, length};
ghost use Rattle.coflow_units.specs.declared.limits.TheConstants.{MAX_PORTS, MAX_WEIGHT};
ghost use Rattle.flow_table.specs.Table.{IsTable, instance_of};
ghost use Rattle.hall_plan.specs.declared.answer.PlanFault.TheVariants.{WireFault};
ghost use Rattle.plans.specs.PlanReport.{IsPlanOf};
ghost use Rattle.report_text.specs.Report.{HasSmallNumbers, HasWeights, IsReport};
ghost use Rattle.hall_plan.specs.Sent.{SendsAll, SendsPart, StopsShort};

use command_files::Input;
use hall_plan::{PlanFault, served_plan};
use outside::Wire;
use report_text::Report;
use std::alloc::Global;
use std::sync::Wait;
use std::thread::Threads;

/// The report of the plan of the input, whose units so many agents send on the wires.
pub(crate) fn serve<R: Threads + Wait + Sync, W: Wire + Send>(
    rt: &R,
    alloc: Global,
    input: &Input,
    agents: u32,
    wires: &mut Vec<W>,
) -> Result<Report, PlanFault>
    requires table { IsTable input.now.table }
    requires count { length input.now.weights ≡ length input.now.table.ids }
    requires least { All (λ w. 1 ≤ w) input.now.weights }
    requires weights { All (λ w. w ≤ MAX_WEIGHT) input.now.weights }
    requires agents { 1 ≤ agents }
    requires wires { MAX_PORTS < length wires.old.items }
    ensures plan { IfOk result (λ report.
        (planned : IsPlanOf (instance_of input.now.table input.now.weights) input.now.table.ids report) ×
        SendsAll W.runs wires.old.items wires.new.items input.now.table planned.slots) }
    ensures weights { IfOk result HasWeights }
    ensures report { IfOk result IsReport }
    ensures small { IfOk result HasSmallNumbers }
    ensures sent { SendsPart W.runs wires.old.items wires.new.items input.now.table input.now.weights }
    ensures fault { (port : ℕ) → result ≡ Err (WireFault port) →
        StopsShort W.faults W.runs wires.old.items wires.new.items port input.now.table input.now.weights }
{
    let report = served_plan(
        alloc,
        rt,
        &input.table,
        input.weights.as_slice(),
        agents,
        wires,
    )?;
    Ok(report)
}

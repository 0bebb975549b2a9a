//! What a report says of its schedule.
ghost use Rattle.std.specs.Prelude.{◌≡◌, ◌<◌, ◌≤◌, ◌+◌, ◌-◌, ◌*◌, ◌^◌, All, IfOk, MatchOption, length};
ghost use Rattle.coflow_units.specs.declared.limits.TheConstants.{MAX_WEIGHT};
ghost use Rattle.flow_table.specs.Table.{instance_of};
ghost use Rattle.report_text.specs.Report.{IsReport};
ghost use Rattle.cert_check.specs.Parts.{HasSoundSchedule, IsFirstFrom, reason_for};
ghost use Rattle.cert_check.specs.Places.{NamesEach, coflows_in};
ghost use Rattle.cert_check.specs.Reasons.{schedule_kind};

use crate::stated::{Claim, ends_of, least_wrong};
use crate::verdict::Reason;
use coflow_units::NoMemory;
use flow_table::Table;
use report_text::Report;
use schedule_model::{ScheduleFault, completions_of_runs, cost_of, find_fault_of_runs};
use std::alloc::Global;

/// The first reason of the schedule, the completions and the cost, where the places name these coflows.
pub(crate) fn wrong_schedule(
    alloc: Global,
    table: &Table,
    weights: &[u64],
    coflows: &[u32],
    report: &Report,
) -> Result<Option<Reason>, NoMemory>
    requires weight_each { length weights.now ≡ length table.now.ids }
    requires weight_range { All (λ w. w ≤ MAX_WEIGHT) weights.now }
    requires report { IsReport report.now }
    requires fits { 4 * report.now.bound + report.now.slack < 2 ^ 128 }
    requires coflows { coflows.now ≡ coflows_in table.now.ids report.now.places }
    requires names { NamesEach (length table.now.ids) (coflows_in table.now.ids report.now.places) }
    ensures { IfOk result (λ found.
        MatchOption found (HasSoundSchedule (instance_of table.now weights.now) table.now.ids report.now)
        (IsFirstFrom (instance_of table.now weights.now) table.now.ids report.now schedule_kind)) }
{
    let flows = table.flows();
    let runs = &report.runs;
    if let Some(fault) = find_fault_of_runs(alloc, flows, runs)? {
        return Ok(Some(reason_of(fault)));
    }
    let ends = completions_of_runs(alloc, flows, table.coflows(), runs)?;
    let stated = ends_of(alloc, report.places.as_slice())?;
    if let Some(claim) = least_wrong(coflows, &stated, &ends) {
        return Ok(Some(wrong_end(claim)));
    }
    let real = cost_of(weights, &ends);
    let cost = report.cost;
    if cost != real {
        return Ok(Some(Reason::CostWrong { stated: cost, real }));
    }
    let most = 4 * report.bound + report.slack;
    if cost > most {
        return Ok(Some(Reason::RatioBroken { cost, most }));
    }
    Ok(None)
}

/// The wrong completion, as a reason.
fn wrong_end(claim: Claim) -> Reason
    ensures { result ≡ Reason.DoneWrong claim.coflow claim.stated claim.real }
{
    Reason::DoneWrong {
        coflow: claim.coflow,
        stated: claim.stated,
        real: claim.real,
    }
}

/// The fault of a schedule, as a reason.
fn reason_of(fault: ScheduleFault) -> Reason
    ensures { result ≡ reason_for fault }
{
    match fault {
        ScheduleFault::NoFlow { slot, flow } => Reason::NoFlow { slot, flow },
        ScheduleFault::Clash { slot, port } => Reason::ClashIn { slot, port },
        ScheduleFault::Units { flow, have, want } => Reason::UnitsOf { flow, have, want },
    }
}

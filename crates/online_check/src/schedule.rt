//! What an online run says of its schedule.
ghost use Rattle.std.specs.Prelude.{◌≡◌, IfOk, MatchOption, length, slice_index};
ghost use Rattle.coflow_units.specs.declared.limits.TheConstants.{MAX_ARRIVAL};
ghost use Rattle.flow_table.specs.Table.{instance_of};
ghost use Rattle.online_text.specs.Online.{IsOnline};
ghost use Rattle.release_bound.specs.Release.{IsReleased};
ghost use Rattle.schedule_model.specs.RunList.{slots_in};
ghost use Rattle.std.specs.Prelude.{ℕ, List};
ghost use Rattle.online_check.specs.Parts.{IsFirstFrom, reason_for};
ghost use Rattle.online_check.specs.Reasons.{schedule_kind};

use crate::early::first_early;
use crate::verdict::OnlineReason;
use coflow_units::NoMemory;
use flow_table::Table;
use online_text::Online;
use schedule_model::{ScheduleFault, find_fault_of_runs};
use std::alloc::Global;

/// The first reason of the schedule.
pub(crate) fn wrong_schedule(
    alloc: Global,
    table: &Table,
    arrivals: &[u64],
    online: &Online,
) -> Result<Option<OnlineReason>, NoMemory>
    requires arrival_each { length arrivals.now ≡ length table.now.ids }
    requires online { IsOnline online.now }
    ensures { IfOk result (λ found. (weights : List ℕ) →
        MatchOption found (IsReleased table.now.flows (slice_index arrivals.now) (slots_in online.now.runs))
        (IsFirstFrom (instance_of table.now weights) (slice_index arrivals.now) table.now.ids online.now
        schedule_kind)) }
{
    let flows = table.flows();
    let runs = &online.runs;
    if let Some(fault) = find_fault_of_runs(alloc, flows, runs)? {
        return Ok(Some(reason_of(fault)));
    }
    if let Some((slot, coflow)) = first_early(alloc, flows, arrivals, runs)? {
        return Ok(Some(OnlineReason::Early { slot, coflow }));
    }
    Ok(None)
}

/// The fault of a schedule, as a reason.
fn reason_of(fault: ScheduleFault) -> OnlineReason
    ensures { result ≡ reason_for fault }
{
    match fault {
        ScheduleFault::NoFlow { slot, flow } => OnlineReason::NoFlow { slot, flow },
        ScheduleFault::Clash { slot, port } => OnlineReason::ClashIn { slot, port },
        ScheduleFault::Units { flow, have, want } => OnlineReason::UnitsOf { flow, have, want },
    }
}

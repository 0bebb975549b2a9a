//! Whether a schedule is valid.
ghost use Rattle.std.specs.Prelude.{◌≡◌, ◌≤◌, ◌^◌, ◌↔◌, IfOk, None, length};
ghost use Rattle.coflow_units.specs.Schedule.{IsValid};
ghost use Rattle.schedule_model.specs.Fault.{IsFirstFault};
ghost use Rattle.schedule_model.specs.RunList.{IsKept, slots_in};

use crate::clashes::find_clash;
use crate::counts::find_miscount;
use crate::fault::ScheduleFault;
use crate::schedule::Schedule;
use crate::strangers::find_stranger;
use coflow_units::{Flow, NoMemory};
use run_list::Runs;
use std::alloc::Global;

/// Tests whether a schedule is valid for the flows: each number is a flow's, no two flows of a slot share a port, and
/// each flow stands in as many slots as it has units.
///
/// It answers the first fault: `NoFlow` before `Clash` before `Units`, then the least slot, then the least flow number
/// or the first port, ingress ports first. `None` says that the schedule is valid. There are at most 2^32 flows.
///
/// It takes two words of memory for each flow, two bytes for each port number up to the greatest of the flows, and room
/// for the most flows that a run has, four times; `NoMemory` says that these were not to be had.
pub fn find_fault(
    alloc: Global,
    flows: &[Flow],
    schedule: &Schedule,
) -> Result<Option<ScheduleFault>, NoMemory>
    requires { length flows.now ≤ 2 ^ 32 }
    ensures first { IfOk result (λ fault. IsFirstFault flows.now schedule.now fault) }
    ensures valid { IfOk result (λ fault. (fault ≡ None) ↔ IsValid flows.now schedule.now) }
{
    let fault = find_fault_of_runs(alloc, flows, schedule.kept())?;
    Ok(fault)
}

/// As `find_fault`, of the schedule whose runs these are: no run is empty, the flows of each ascend, and neighbours
/// differ.
pub fn find_fault_of_runs(
    alloc: Global,
    flows: &[Flow],
    runs: &Runs,
) -> Result<Option<ScheduleFault>, NoMemory>
    requires few { length flows.now ≤ 2 ^ 32 }
    requires kept { IsKept runs.now }
    ensures first { IfOk result (λ fault. IsFirstFault flows.now (slots_in runs.now) fault) }
    ensures valid { IfOk result (λ fault. (fault ≡ None) ↔ IsValid flows.now (slots_in runs.now)) }
{
    if let Some((slot, flow)) = find_stranger(alloc, flows, runs)? {
        return Ok(Some(ScheduleFault::NoFlow { slot, flow }));
    }
    if let Some((slot, port)) = find_clash(alloc, flows, runs)? {
        return Ok(Some(ScheduleFault::Clash { slot, port }));
    }
    let fault = find_miscount(alloc, flows, runs)?;
    Ok(fault)
}

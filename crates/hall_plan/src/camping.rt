//! The runs of a plan, by a crew whose helpers live through all of them.
ghost use Rattle.std.specs.Prelude.{◌≡◌, ℕ, ◌<◌, ◌≤◌, [], List, Err, IfOk, length, slice_index_or};
ghost use Rattle.outside.specs.Rose.{Rose};
ghost use Rattle.coflow_units.specs.Served.{IsServed};
ghost use Rattle.hall_plan.specs.declared.answer.PlanFault.TheVariants.{WireFault};
ghost use Rattle.slot_runner.specs.Cuts.{HaveStopped};
ghost use Rattle.hall_plan.specs.Journals.{IsPlanBegun};
ghost use Rattle.hall_plan.specs.Halls.{MayPlan};
ghost use Rattle.hall_plan.specs.Journals.{plan_order};
ghost use Rattle.slot_runner.specs.Wires.{AreAllUnits, AreUnits, HaveMore, StopsAt};

use crate::answer::PlanFault;
use crate::serving::serve_camp;
use client_session::Hall;
use outside::Wire;
use schedule_model::Schedule;
use slot_runner::{Camp, Runner};
use std::alloc::Global;
use std::sync::Wait;
use std::thread::Threads;

/// The runner gets a crew of so many agents, which takes the wires, and runs until nothing is left, each run as long as
/// it may be. It answers the schedule of the runs. After a wire fault no further run is opened. The wires come back in
/// their order.
pub(crate) fn serve_by_camp<R: Threads + Wait + Sync, W: Wire + Send>(
    alloc: Global,
    rt: &R,
    hall: &Hall,
    runner: Runner,
    agents: u32,
    wires: &mut Vec<W>,
) -> Result<Schedule, PlanFault>
    requires runner { MayPlan hall.now runner [] }
    requires agents { 1 ≤ agents }
    requires wires { hall.now.setting.opening.table.ports ≤ length wires.old.items }
    ensures schedule { IfOk result (λ slots.
        IsServed hall.now.setting.opening.table.flows (plan_order hall.now.setting.opening) slots) }
    ensures sent { IfOk result (λ slots. HaveMore W.runs (AreAllUnits hall.now.setting.opening.table.flows slots)
        hall.now.setting.opening.table.ports wires.old.items wires.new.items) }
    ensures wires { (slots : List (List ℕ)) →
        IsServed hall.now.setting.opening.table.flows (plan_order hall.now.setting.opening) slots →
        HaveMore W.runs (AreUnits hall.now.setting.opening.table.flows slots)
        hall.now.setting.opening.table.ports wires.old.items wires.new.items }
    ensures fault { (port : ℕ) → result ≡ Err (WireFault port) →
        (port < hall.now.setting.opening.table.ports) ×
        ((b a : W) → Rose (W.faults (slice_index_or wires.old.items port b))
        (W.faults (slice_index_or wires.new.items port a))) }
    ensures least { (port : ℕ) (slots : List (List ℕ)) → result ≡ Err (WireFault port) →
        IsServed hall.now.setting.opening.table.flows (plan_order hall.now.setting.opening) slots →
        (end : ℕ) × HaveMore W.runs (StopsAt hall.now.setting.opening.table.flows slots port end)
        hall.now.setting.opening.table.ports wires.old.items wires.new.items }
    ensures stops { (port : ℕ) → result ≡ Err (WireFault port) →
        HaveStopped W.runs (IsPlanBegun hall.now.setting.opening)
        hall.now.setting.opening port wires.old.items wires.new.items }
{
    let Ok(camp) = runner.into_camp(alloc, agents, wires) else {
        return Err(PlanFault::NoMemory);
    };
    let Camp {
        mut crew,
        site,
        mut helpers,
        far,
    } = camp;
    let served = serve_camp(alloc, rt, hall, &site, &mut crew, &mut helpers);
    let camp = Camp {
        crew,
        site,
        helpers,
        far,
    };
    drop(camp.disband(wires));
    served
}

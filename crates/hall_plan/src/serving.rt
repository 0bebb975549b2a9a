//! The runs of a plan.
ghost use Rattle.std.specs.Prelude.{◌≡◌, ℕ, ◌<◌, ◌≤◌, [], List, Err, IfOk, length, map, slice_index_or};
ghost use Rattle.outside.specs.Rose.{Rose};
ghost use Rattle.coflow_units.specs.Served.{IsServed};
ghost use Rattle.hall_plan.specs.declared.answer.PlanFault.TheVariants.{WireFault};
ghost use Rattle.slot_runner.specs.Cuts.{HaveStopped};
ghost use Rattle.hall_plan.specs.Journals.{IsPlanBegun};
ghost use denote.Param.Send.{IsSync};
ghost use Rattle.crews.specs.Sections.{helper_at};
ghost use Rattle.slot_runner.specs.Crews.{IsAt};
ghost use Rattle.hall_plan.specs.Beside.{IsPlanServed};
ghost use Rattle.hall_plan.specs.Halls.{MayPlan};
ghost use Rattle.hall_plan.specs.Journals.{plan_order};
ghost use Rattle.slot_runner.specs.Wires.{AreAllUnits, AreUnits, HaveMore, StopsAt};

use crate::answer::PlanFault;
use client_session::Hall;
use coflow_units::MAX_SLOT;
use crews::{Part, help_all};
use errands::Helper;
use outside::Wire;
use schedule_model::Schedule;
use slot_runner::{Crew, Ran, Site};
use std::alloc::Global;
use std::sync::Wait;
use std::thread::{Threads, join_mut};

/// Runs until nothing is left, each run as long as it may be, and answers the schedule of the runs. After a wire fault
/// no further run is opened.
fn serve<R: Wait, W: Wire>(
    alloc: Global,
    rt: &R,
    hall: &Hall,
    site: &Site<W>,
    crew: &mut Crew<W>,
) -> Result<Schedule, PlanFault>
    requires runner { MayPlan hall.now crew.old.runner [] }
    requires site { IsAt site.now crew.old }
    requires wires { hall.now.setting.opening.table.ports ≤ length crew.old.wires }
    ensures schedule { IfOk result (λ slots.
        IsServed hall.now.setting.opening.table.flows (plan_order hall.now.setting.opening) slots) }
    ensures sent { IfOk result (λ slots. HaveMore W.runs (AreAllUnits hall.now.setting.opening.table.flows slots)
        hall.now.setting.opening.table.ports crew.old.wires crew.new.wires) }
    ensures wires { (slots : List (List ℕ)) →
        IsServed hall.now.setting.opening.table.flows (plan_order hall.now.setting.opening) slots →
        HaveMore W.runs (AreUnits hall.now.setting.opening.table.flows slots)
        hall.now.setting.opening.table.ports crew.old.wires crew.new.wires }
    ensures fault { (port : ℕ) → result ≡ Err (WireFault port) →
        (port < hall.now.setting.opening.table.ports) ×
        ((b a : W) → Rose (W.faults (slice_index_or crew.old.wires port b))
        (W.faults (slice_index_or crew.new.wires port a))) }
    ensures least { (port : ℕ) (slots : List (List ℕ)) → result ≡ Err (WireFault port) →
        IsServed hall.now.setting.opening.table.flows (plan_order hall.now.setting.opening) slots →
        (end : ℕ) × HaveMore W.runs (StopsAt hall.now.setting.opening.table.flows slots port end)
        hall.now.setting.opening.table.ports crew.old.wires crew.new.wires }
    ensures stops { (port : ℕ) → result ≡ Err (WireFault port) →
        HaveStopped W.runs (IsPlanBegun hall.now.setting.opening)
        hall.now.setting.opening port crew.old.wires crew.new.wires }
    ensures stays { (crew.new.at ≡ crew.old.at) × (crew.new.places ≡ crew.old.places) }
    ensures ports { crew.new.runner.ports ≡ hall.now.setting.opening.table.ports }
{
    let mut schedule = Schedule::new(alloc);
    loop {
        match crew.slot(rt, hall, site, MAX_SLOT) {
            Ran::Ran { length, .. } => schedule.push_run(length, crew.granted())?,
            Ran::Nothing => return Ok(schedule),
            Ran::WireFault { port, .. } => return Err(PlanFault::WireFault { port }),
            Ran::Late(_) | Ran::Full(_) | Ran::Spent | Ran::NoMemory => unreachable!(),
        }
    }
}

/// The same, and then the helpers end.
pub(crate) fn serve_all<R: Wait, W: Wire>(
    alloc: Global,
    rt: &R,
    hall: &Hall,
    site: &Site<W>,
    crew: &mut Crew<W>,
) -> Result<Schedule, PlanFault>
    requires runner { MayPlan hall.now crew.old.runner [] }
    requires site { IsAt site.now crew.old }
    requires wires { hall.now.setting.opening.table.ports ≤ length crew.old.wires }
    ensures { IsPlanServed W.faults W.runs hall.now crew.old crew.new result }
{
    let served = serve(alloc, rt, hall, site, crew);
    crew.dismiss(site);
    served
}

/// The same by a crew in its camp: each helper attends on a thread of its own. The driver's closure stands second: it
/// runs first where no thread is to be had, attends every part itself, and lets the helpers go before they come.
pub(crate) fn serve_camp<'a, R: Threads + Wait + Sync, W: Wire + Send>(
    alloc: Global,
    rt: &'a R,
    hall: &'a Hall,
    site: &'a Site<W>,
    crew: &'a mut Crew<W>,
    helpers: &'a mut [Helper<Part<W>>],
) -> Result<Schedule, PlanFault>
    requires helpers { helpers.old ≡ map (helper_at site.now.board) site.now.trays.items }
    requires runner { MayPlan hall.now crew.old.runner [] }
    requires site { IsAt site.now crew.old }
    requires wires { hall.now.setting.opening.table.ports ≤ length crew.old.wires }
    ensures { IsPlanServed W.faults W.runs hall.now crew.old crew.new result }
{
    if helpers.is_empty() {
        return serve_all(alloc, rt, hall, site, crew);
    }
    let board = &site.board;
    let trays = site.trays.as_slice();
    let (_, served) = join_mut(
        rt,
        &mut || -> ()
            requires { IsSync R.row × (helpers.now ≡ map (helper_at board.now) trays.now) }
        { help_all(rt, board, trays, helpers) },
        &mut || -> Result<Schedule, PlanFault>
            requires { IsSync R.row × MayPlan hall.now crew.now.runner [] × IsAt site.now crew.now ×
                (hall.now.setting.opening.table.ports ≤ length crew.now.wires) }
            ensures { IsPlanServed W.faults W.runs hall.entry.now crew.entry.now crew.exit.now result }
        { serve_all(alloc, rt, hall, site, crew) },
    );
    served
}

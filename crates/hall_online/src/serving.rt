//! The actions of an online run, one after another, by a crew.
ghost use Rattle.std.specs.Prelude.{◌≡◌, ◌≤◌, ◌<◌, ℕ, Err, List, OnOk, length, map, slice_index_or};
ghost use denote.Param.Send.{IsSync};
ghost use Rattle.outside.specs.Rose.{Rose};
ghost use Rattle.crews.specs.Sections.{helper_at};
ghost use Rattle.slot_runner.specs.Cuts.{HaveStopped};
ghost use Rattle.slot_runner.specs.Wires.{AreAllUnits, HaveMore};
ghost use Rattle.online_runs.specs.Deeds.{PublishesTooMany};
ghost use Rattle.hall_online.specs.declared.answer.OnlineFault.TheVariants.{TooMany, WireFault};
ghost use Rattle.hall_online.specs.Beside.{IsOnlineServed, MayServe, StaysAt};
ghost use Rattle.hall_online.specs.Serving.{EndsAs, HaveServed, IsOnlineBegun, IsUnderWay};

use crate::acting::{act_join, act_leave, act_pass, act_publish};
use crate::answer::OnlineFault;
use crate::beginning::Kept;
use crate::running::act_run;
use client_session::Hall;
use crews::{Part, help_all};
use epochs::Action;
use errands::Helper;
use flow_table::Table;
use outside::Wire;
use slot_runner::{Crew, Site};
use std::alloc::Global;
use std::sync::Wait;
use std::thread::{Threads, join_mut};

/// Carries out one action after another, up to the end of the run.
fn serve<R: Wait, W: Wire>(
    alloc: Global,
    rt: &R,
    hall: &Hall,
    site: &Site<W>,
    crew: &mut Crew<W>,
    table: &Table,
    kept: &mut Kept,
) -> Result<(), OnlineFault>
    requires may { MayServe hall.now table.now site.now crew.old kept.old }
    ensures ends { OnOk result ((arrivals : List ℕ) (every : ℕ) →
        IsUnderWay hall.now crew.old.runner arrivals every kept.old.course kept.old.progress →
        EndsAs hall.now.setting.opening arrivals every kept.new.progress) }
    ensures sent { OnOk result (HaveMore W.runs (AreAllUnits hall.now.setting.opening.table.flows
        kept.new.progress.schedule) hall.now.setting.opening.table.ports crew.old.wires crew.new.wires) }
    ensures served { (arrivals : List ℕ) (every : ℕ) →
        IsUnderWay hall.now crew.old.runner arrivals every kept.old.course kept.old.progress →
        HaveServed W.runs hall.now.setting.opening arrivals every crew.old.wires crew.new.wires }
    ensures fault { (port : ℕ) → result ≡ Err (WireFault port) → (port < hall.now.setting.opening.table.ports) ×
        ((b a : W) → Rose (W.faults (slice_index_or crew.old.wires port b))
        (W.faults (slice_index_or crew.new.wires port a))) }
    ensures stops { (port : ℕ) (arrivals : List ℕ) (every : ℕ) → result ≡ Err (WireFault port) →
        IsUnderWay hall.now crew.old.runner arrivals every kept.old.course kept.old.progress →
        HaveStopped W.runs (IsOnlineBegun hall.now.setting.opening arrivals every) hall.now.setting.opening port
        crew.old.wires crew.new.wires }
    ensures too_many { (count : ℕ) (arrivals : List ℕ) (every : ℕ) → result ≡ Err (TooMany count) →
        IsUnderWay hall.now crew.old.runner arrivals every kept.old.course kept.old.progress →
        PublishesTooMany hall.now.setting.opening arrivals every count }
    ensures stays { StaysAt crew.old crew.new }
{
    'actions: loop {
        match kept.course.next(kept.progress.time, &kept.progress.owed) {
            Action::Register(coflow) => act_join(rt, hall, crew, &mut kept.progress, coflow),
            Action::Withdraw(coflow) => act_leave(rt, hall, crew, &mut kept.progress, coflow),
            Action::Publish => {
                act_publish(
                    alloc,
                    rt,
                    hall,
                    crew,
                    table,
                    &mut kept.orders,
                    &mut kept.progress,
                )?;
            }
            Action::Run(most) => act_run(rt, hall, site, crew, table, &mut kept.progress, most)?,
            Action::Skip(to) => act_pass(rt, hall, crew, &mut kept.progress, to)?,
            Action::End => return Ok(()),
            Action::TooMany(count) => return Err(OnlineFault::TooMany { count }),
        }
    }
}

/// The same, and then the helpers end, whatever it came to.
fn serve_all<R: Wait, W: Wire>(
    alloc: Global,
    rt: &R,
    hall: &Hall,
    site: &Site<W>,
    crew: &mut Crew<W>,
    table: &Table,
    kept: &mut Kept,
) -> Result<(), OnlineFault>
    requires may { MayServe hall.now table.now site.now crew.old kept.old }
    ensures { IsOnlineServed W.faults W.runs hall.now crew.old crew.new kept.old kept.new result }
{
    let served = serve(alloc, rt, hall, site, crew, table, kept);
    crew.dismiss(site);
    served
}

/// The same by a crew in its camp: each helper attends on a thread of its own. The driver's closure stands second: it
/// runs first where no thread is to be had, attends every part itself, and lets the helpers go before they come.
pub(crate) fn serve_camp<'a, R: Threads + Wait + Sync, W: Wire + Send>(
    alloc: Global,
    rt: &'a R,
    hall: &'a Hall,
    site: &'a Site<W>,
    crew: &'a mut Crew<W>,
    table: &'a Table,
    kept: &'a mut Kept,
    helpers: &'a mut [Helper<Part<W>>],
) -> Result<(), OnlineFault>
    requires helpers { helpers.old ≡ map (helper_at site.now.board) site.now.trays.items }
    requires may { MayServe hall.now table.now site.now crew.old kept.old }
    ensures { IsOnlineServed W.faults W.runs hall.now crew.old crew.new kept.old kept.new result }
{
    if helpers.is_empty() {
        return serve_all(alloc, rt, hall, site, crew, table, kept);
    }
    let board = &site.board;
    let trays = site.trays.as_slice();
    let (_, served) = join_mut(
        rt,
        &mut || -> ()
            requires { IsSync R.row × (helpers.now ≡ map (helper_at board.now) trays.now) }
        { help_all(rt, board, trays, helpers) },
        &mut || -> Result<(), OnlineFault>
            requires { IsSync R.row × MayServe hall.now table.now site.now crew.now kept.now }
            ensures { IsOnlineServed W.faults W.runs hall.entry.now crew.entry.now crew.exit.now kept.entry.now
                kept.exit.now result }
        { serve_all(alloc, rt, hall, site, crew, table, kept) },
    );
    served
}

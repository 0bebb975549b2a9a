//! The runs of an online run.
ghost use Rattle.std.specs.Prelude.{◌≡◌, ◌≤◌, ◌<◌, ℕ, Err, List, OnOk, length, slice_index_or};
ghost use Rattle.outside.specs.Rose.{Rose};
ghost use Rattle.epochs.specs.declared.action.Action.TheVariants.{Run};
ghost use Rattle.epochs.specs.Course.{Course};
ghost use Rattle.slot_runner.specs.Crews.{IsAt};
ghost use Rattle.slot_runner.specs.Cuts.{HaveStopped};
ghost use Rattle.slot_runner.specs.Wires.{NoneFell};
ghost use Rattle.hall_online.specs.declared.answer.OnlineFault.TheVariants.{TooMany, WireFault};
ghost use Rattle.hall_online.specs.Beside.{StaysAt};
ghost use Rattle.hall_online.specs.Serving.{ComesFirst, HaveSent, HaveServed, IsDoneFrom, IsOnlineBegun, IsUnderWay, MayDo};

use crate::answer::OnlineFault;
use client_session::Hall;
use epochs::spend;
use flow_table::Table;
use online_runs::Progress;
use outside::Wire;
use slot_runner::{Crew, Ran, Site};
use std::sync::Wait;

/// A run of at most so many slots. After an error what is kept is not told.
pub(crate) fn act_run<R: Wait, W: Wire>(
    rt: &R,
    hall: &Hall,
    site: &Site<W>,
    crew: &mut Crew<W>,
    table: &Table,
    progress: &mut Progress,
    most: u64,
) -> Result<(), OnlineFault>
    requires may { MayDo hall.now crew.old.runner progress.old (Run most) }
    requires table { table.now ≡ hall.now.setting.opening.table }
    requires site { IsAt site.now crew.old }
    requires wires { hall.now.setting.opening.table.ports ≤ length crew.old.wires }
    ensures done { OnOk result
        (IsDoneFrom hall.now crew.old.runner crew.new.runner progress.old progress.new (Run most)) }
    ensures longer { OnOk result (length crew.old.runner.driver.journal < length crew.new.runner.driver.journal) }
    ensures sent { OnOk result ((before : List W) → HaveSent W.runs hall.now crew.old.runner before crew.old.wires →
        HaveSent W.runs hall.now crew.new.runner before crew.new.wires) }
    ensures served { (arrivals : List ℕ) (every : ℕ) (s : Course) (before : List W) →
        IsUnderWay hall.now crew.old.runner arrivals every s progress.old → ComesFirst s progress.old (Run most) →
        HaveSent W.runs hall.now crew.old.runner before crew.old.wires →
        HaveServed W.runs hall.now.setting.opening arrivals every before crew.new.wires }
    ensures fell { NoneFell W.faults hall.now.setting.opening.table.ports crew.old.wires crew.new.wires }
    ensures fault { (port : ℕ) → result ≡ Err (WireFault port) → (port < hall.now.setting.opening.table.ports) ×
        ((b a : W) → Rose (W.faults (slice_index_or crew.old.wires port b))
        (W.faults (slice_index_or crew.new.wires port a))) }
    ensures stops { (port : ℕ) (arrivals : List ℕ) (every : ℕ) (s : Course) (before : List W) →
        result ≡ Err (WireFault port) → IsUnderWay hall.now crew.old.runner arrivals every s progress.old →
        ComesFirst s progress.old (Run most) → HaveSent W.runs hall.now crew.old.runner before crew.old.wires →
        HaveStopped W.runs (IsOnlineBegun hall.now.setting.opening arrivals every) hall.now.setting.opening port
        before crew.new.wires }
    ensures not_many { (count : ℕ) → result ≡ Err (TooMany count) → ⊥ }
    ensures stays { StaysAt crew.old crew.new }
{
    match crew.slot(rt, hall, site, most) {
        Ran::Ran { length, .. } => {
            let granted = crew.granted();
            progress.schedule.push_run(length, granted)?;
            spend(
                &mut progress.left,
                &mut progress.owed,
                table.flows(),
                granted,
                length,
            );
            progress.time += length;
            Ok(())
        }
        Ran::WireFault { port, .. } => Err(OnlineFault::WireFault { port }),
        Ran::Nothing | Ran::Late(_) | Ran::Full(_) | Ran::Spent | Ran::NoMemory => unreachable!(),
    }
}

//! An online run by a crew whose helpers live through all of its runs.
ghost use Rattle.std.specs.Prelude.{◌≡◌, ℕ, ◌<◌, ◌≤◌, [], Err, List, OnOk, length, slice_index_or, vec_capacity};
ghost use Rattle.outside.specs.Rose.{Rose};
ghost use Rattle.slot_runner.specs.Cuts.{HaveStopped};
ghost use Rattle.slot_runner.specs.Wires.{AreAllUnits, HaveMore};
ghost use Rattle.online_runs.specs.Deeds.{PublishesTooMany};
ghost use Rattle.hall_online.specs.declared.answer.OnlineFault.TheVariants.{TooMany, WireFault};
ghost use Rattle.hall_online.specs.Serving.{EndsAs, HaveServed, IsOnlineBegun, IsUnderWay};

use crate::answer::OnlineFault;
use crate::beginning::Kept;
use crate::serving::serve_camp;
use client_session::Hall;
use flow_table::Table;
use outside::Wire;
use slot_runner::{Camp, Runner};
use std::alloc::Global;
use std::sync::Wait;
use std::thread::Threads;

/// The runner gets a crew of so many agents, which takes the wires, and serves an online run to its end. After a wire
/// fault no further run is opened. The wires come back in their order.
pub(crate) fn serve_by_camp<R: Threads + Wait + Sync, W: Wire + Send>(
    alloc: Global,
    rt: &R,
    hall: &Hall,
    runner: Runner,
    table: &Table,
    kept: &mut Kept,
    agents: u32,
    wires: &mut Vec<W>,
) -> Result<(), OnlineFault>
    requires under_way { (arrivals : List ℕ) × (every : ℕ) ×
        IsUnderWay hall.now runner arrivals every kept.old.course kept.old.progress }
    requires none { runner.driver.journal ≡ [] }
    requires table { table.now ≡ hall.now.setting.opening.table }
    requires places { length table.now.ids ≤ vec_capacity kept.old.orders.places }
    requires coflows { kept.old.orders.loads.coflows ≡ length table.now.ids }
    requires ports { kept.old.orders.loads.ports ≡ table.now.ports }
    requires agents { 1 ≤ agents }
    requires wires { hall.now.setting.opening.table.ports ≤ length wires.old.items }
    ensures ends { OnOk result ((arrivals : List ℕ) (every : ℕ) →
        IsUnderWay hall.now runner arrivals every kept.old.course kept.old.progress →
        EndsAs hall.now.setting.opening arrivals every kept.new.progress) }
    ensures sent { OnOk result (HaveMore W.runs (AreAllUnits hall.now.setting.opening.table.flows
        kept.new.progress.schedule) hall.now.setting.opening.table.ports wires.old.items wires.new.items) }
    ensures served { (arrivals : List ℕ) (every : ℕ) →
        IsUnderWay hall.now runner arrivals every kept.old.course kept.old.progress →
        HaveServed W.runs hall.now.setting.opening arrivals every wires.old.items wires.new.items }
    ensures fault { (port : ℕ) → result ≡ Err (WireFault port) → (port < hall.now.setting.opening.table.ports) ×
        ((b a : W) → Rose (W.faults (slice_index_or wires.old.items port b))
        (W.faults (slice_index_or wires.new.items port a))) }
    ensures stops { (port : ℕ) (arrivals : List ℕ) (every : ℕ) → result ≡ Err (WireFault port) →
        IsUnderWay hall.now runner arrivals every kept.old.course kept.old.progress →
        HaveStopped W.runs (IsOnlineBegun hall.now.setting.opening arrivals every) hall.now.setting.opening port
        wires.old.items wires.new.items }
    ensures too_many { (count : ℕ) (arrivals : List ℕ) (every : ℕ) → result ≡ Err (TooMany count) →
        IsUnderWay hall.now runner arrivals every kept.old.course kept.old.progress →
        PublishesTooMany hall.now.setting.opening arrivals every count }
{
    let Ok(camp) = runner.into_camp(alloc, agents, wires) else {
        return Err(OnlineFault::NoMemory);
    };
    let Camp {
        mut crew,
        site,
        mut helpers,
        far,
    } = camp;
    let served = serve_camp(alloc, rt, hall, &site, &mut crew, table, kept, &mut helpers);
    let camp = Camp {
        crew,
        site,
        helpers,
        far,
    };
    drop(camp.disband(wires));
    served
}

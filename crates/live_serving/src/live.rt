//! The script of a run of `live`, served by a hall.
ghost use Rattle.std.specs.Prelude.{◌≡◌, ◌<◌, ◌≤◌, ℕ, [], Err, IfOk, length, slice_index_or};
ghost use Rattle.coflow_units.specs.declared.limits.TheConstants.{MAX_CLIENTS};
ghost use Rattle.outside.specs.Rose.{Rose};
ghost use Rattle.live_model.specs.Script.{limit_of};
ghost use Rattle.live_serving.specs.Ends.{MayBeAsked};
ghost use Rattle.live_serving.specs.declared.answer.LiveFault.TheVariants.{WireFault};
ghost use Rattle.live_serving.specs.Served.{IsServed};
ghost use Rattle.live_serving.specs.Wires.{HaveServed, HaveStopped};

use crate::answer::{LiveFault, Served};
use crate::beginning::begin;
use crate::camping::serve_camp;
use crate::ending::end;
use crate::stage::Stage;
use live_rounds::Gate;
use master_core::Master;
use outside::Wire;
use slot_runner::Camp;
use std::alloc::Global;
use std::sync::Wait;
use std::thread::Threads;
use workload::Script;

/// Carries out a script in a hall of a new master, whose journal has room for the script's commands, twice its rounds,
/// twice the units, and two. Each client has a session and a thread of its own, and passes its gate before each
/// command. Round follows on round, beside a run of slots where one is asked for, and between them all callers see what
/// one of them has seen. After the last round runs are opened until nothing is left, each run of at most so many slots.
/// So many agents beside each other, at most one for each port, send the units on the wires, one for each ingress port,
/// and further wires are left alone. The helpers live through all rounds and runs, and the crew has the wires
/// meanwhile. At every answer the wires stand in the vector again, in their order.
///
/// `WireFault` comes only where the count of that port's wire rose in this call. It is the least port at which a unit
/// of the last run is missing, and no further run is opened after it. `NoMemory` is want of memory. At every answer
/// what was sent are units of one schedule, none twice.
pub fn serve_live<R: Threads + Wait + Sync, W: Wire + Send, G: Gate + Send>(
    alloc: Global,
    rt: &R,
    master: Master,
    script: &Script,
    most: u64,
    agents: u32,
    gates: &mut [G],
    wires: &mut Vec<W>,
) -> Result<Served, LiveFault>
    requires empty { master.journal ≡ [] }
    requires limit { master.opening.limit ≡ limit_of master.opening script.now }
    requires asked { MayBeAsked master.opening script.now }
    requires clients { script.now.clients ≤ MAX_CLIENTS }
    requires most { 1 ≤ most }
    requires agents { 1 ≤ agents }
    requires gates { script.now.clients ≤ length gates.old }
    requires wires { master.opening.table.ports ≤ length wires.old.items }
    ensures opening { IfOk result (λ s. s.master.opening ≡ master.opening) }
    ensures served { IfOk result (λ s.
        IsServed W.runs master.opening script.now most s.master.journal s.pulls wires.old.items wires.new.items) }
    ensures wires { HaveServed W.runs master.opening wires.old.items wires.new.items }
    ensures fault { (port : ℕ) → result ≡ Err (WireFault port) → (port < master.opening.table.ports) ×
        ((b a : W) → Rose (W.faults (slice_index_or wires.old.items port b))
        (W.faults (slice_index_or wires.new.items port a))) }
    ensures least { (port : ℕ) → result ≡ Err (WireFault port) →
        HaveStopped W.runs master.opening port wires.old.items wires.new.items }
{
    let (mut run, runner) = begin(alloc, master, script)?;
    let Ok(camp) = runner.into_camp(alloc, agents, wires) else {
        drop(run);
        return Err(LiveFault::NoMemory);
    };
    let Camp {
        mut crew,
        site,
        mut helpers,
        far,
    } = camp;
    let (near, _far) = gates.split_at_mut(script.clients as usize);
    let stage = Stage {
        alloc,
        hall: &run.hall,
        site: &site,
        script,
        most,
    };
    let answer = serve_camp(
        rt,
        &stage,
        &mut crew,
        &mut run.sessions,
        &mut run.pulls,
        near,
        &mut helpers,
    );
    let camp = Camp {
        crew,
        site,
        helpers,
        far,
    };
    let driver = camp.disband(wires);
    end(alloc, run, driver, script, answer)
}

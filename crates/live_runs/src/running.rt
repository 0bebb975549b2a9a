//! A run of `live` that a hall serves.
ghost use Rattle.std.specs.Prelude.{◌≡◌, ◌<◌, ◌≤◌, ◌^◌, ℕ, All, Err, IfOk, length, slice_index_or};
ghost use Rattle.coflow_units.specs.declared.limits.TheConstants.{MAX_CLIENTS, MAX_WEIGHT};
ghost use Rattle.outside.specs.Rose.{Rose};
ghost use Rattle.live_model.specs.Script.{limit_of};
ghost use Rattle.live_serving.specs.Ends.{MayBeAsked};
ghost use Rattle.live_serving.specs.declared.answer.LiveFault.TheVariants.{WireFault};
ghost use Rattle.live_serving.specs.Wires.{HaveServed, HaveStopped};
ghost use Rattle.live_runs.specs.Run.{IsToldRun, opening_with};

use crate::value::{copy_of, value_of};
use coflow_units::Items;
use flow_table::Table;
use live_rounds::Gate;
use live_serving::{LiveFault, serve_live};
use live_text::Live;
use master_core::Master;
use outside::Wire;
use std::alloc::Global;
use std::sync::Wait;
use std::thread::Threads;
use workload::Script;

/// Carries out a script in a hall over the table, with these weights, one for each coflow, from 1 to 2^32, and gives
/// what is printed of it. The limit is that of the script. All else is as `serve_live` has it: what was sent at any
/// answer, when a wire's fault comes, and how the clients, their gates and the agents stand beside one another.
pub fn run_live<R: Threads + Wait + Sync, W: Wire + Send, G: Gate + Send>(
    alloc: Global,
    rt: &R,
    table: Table,
    weights: Items<u64>,
    limit: u32,
    script: &Script,
    most: u64,
    agents: u32,
    gates: &mut [G],
    wires: &mut Vec<W>,
) -> Result<Live, LiveFault>
    requires each_weight { length weights ≡ length table.ids }
    requires weight { All (λ w. (1 ≤ w) × (w ≤ MAX_WEIGHT)) weights }
    requires limit { limit ≡ limit_of (opening_with table weights limit) script.now }
    requires few { limit ≤ 2 ^ 23 }
    requires asked { MayBeAsked (opening_with table weights limit) script.now }
    requires clients { script.now.clients ≤ MAX_CLIENTS }
    requires most { 1 ≤ most }
    requires agents { 1 ≤ agents }
    requires gates { script.now.clients ≤ length gates.old }
    requires wires { table.ports ≤ length wires.old.items }
    ensures run { IfOk result (λ live.
        IsToldRun W.runs (opening_with table weights limit) script.now most live wires.old.items wires.new.items) }
    ensures wires { HaveServed W.runs (opening_with table weights limit) wires.old.items wires.new.items }
    ensures fault { (port : ℕ) → result ≡ Err (WireFault port) → (port < table.ports) ×
        ((b a : W) → Rose (W.faults (slice_index_or wires.old.items port b))
        (W.faults (slice_index_or wires.new.items port a))) }
    ensures least { (port : ℕ) → result ≡ Err (WireFault port) →
        HaveStopped W.runs (opening_with table weights limit) port wires.old.items wires.new.items }
{
    let again = copy_of(alloc, &weights)?;
    let master = Master::new(alloc, table, weights, limit)?;
    let served = serve_live(alloc, rt, master, script, most, agents, gates, wires)?;
    let live = value_of(alloc, served, again, limit)?;
    Ok(live)
}

//! The online run of a table, served by a hall.
ghost use Rattle.std.specs.Prelude.{◌≡◌, ◌+◌, ◌≤◌, ◌<◌, ℕ, All, Err, IfOk, length, slice_index_or};
ghost use Rattle.coflow_units.specs.declared.limits.TheConstants.{MAX_ARRIVAL, MAX_OPTION_SLOTS, MAX_WEIGHT};
ghost use Rattle.outside.specs.Rose.{Rose};
ghost use Rattle.slot_runner.specs.Cuts.{HaveStopped};
ghost use Rattle.slot_runner.specs.Wires.{AreAllUnits, HaveMore};
ghost use Rattle.schedule_model.specs.RunList.{NamesFlows, slots_in};
ghost use Rattle.online_runs.specs.Deeds.{PublishesTooMany};
ghost use Rattle.online_runs.specs.Input.{online_opening};
ghost use Rattle.online_runs.specs.Value.{IsOnlineOf};
ghost use Rattle.hall_online.specs.declared.answer.OnlineFault.TheVariants.{TooMany, WireFault};
ghost use Rattle.hall_online.specs.Serving.{EndsAs, HaveServed, IsOnlineBegun};

use crate::answer::OnlineFault;
use crate::beginning::{Begun, begin, progress_of};
use crate::camping::serve_by_camp;
use flow_table::Table;
use online_runs::{Progress, told};
use online_text::Online;
use outside::Wire;
use release_bound::{Threshold, released_by};
use std::alloc::Global;
use std::sync::Wait;
use std::thread::Threads;

/// Serves the coflows of a table as they arrive. A coflow joins once it has arrived. At each multiple of `every` slots,
/// from 1 to 2^40, where somebody owes a unit, those who owe nothing leave and the others are ordered anew. Between
/// these times runs are served, each as long as it may be up to the next of them, the next arrival, or the end of a
/// flow. Where nobody owes anything, slots pass up to the next arrival. There is one weight for each coflow, from 1 to
/// 2^32, and one arrival, a time in slots of at most 2^32. So many agents beside each other, at most one a port and
/// started once for all runs, send the units on the wires, one for each ingress port, and further wires are left alone.
/// While it runs the agents have the wires, and at every answer the vector has them again, in their order.
///
/// The orders are made by bottleneck, select, scale, iterate (Sincronia: Agarwal, Rajakrishnan, Narayan, Agarwal,
/// Shmoys and Vahdat, SIGCOMM 2018); the rule of epochs and arrivals is this project's. `WireFault` comes only where
/// the count of that port's wire rose in this call. It is the least port at which a unit of the last run is missing,
/// and no further run is opened after it. `TooMany` comes exactly where more than 8192 orders would be published, if no
/// fault and no want of memory comes before. `NoMemory` is want of memory. At every answer what was sent are units of
/// one online run, none twice.
pub fn serve_online<R: Threads + Wait + Sync, W: Wire + Send>(
    alloc: Global,
    rt: &R,
    table: &Table,
    weights: &[u64],
    arrivals: &[u64],
    every: u64,
    agents: u32,
    wires: &mut Vec<W>,
) -> Result<Online, OnlineFault>
    requires weight_each { length weights.now ≡ length table.now.ids }
    requires weight_range { All (λ w. (1 ≤ w) × (w ≤ MAX_WEIGHT)) weights.now }
    requires arrival_each { length arrivals.now ≡ length table.now.ids }
    requires arrival_range { All (λ a. a ≤ MAX_ARRIVAL + 1) arrivals.now }
    requires epoch_some { 1 ≤ every }
    requires epoch_fits { every ≤ MAX_OPTION_SLOTS }
    requires agents { 1 ≤ agents }
    requires wires { table.now.ports ≤ length wires.old.items }
    ensures online { IfOk result
        (IsOnlineOf (online_opening table.now weights.now) arrivals.now every) }
    ensures sent { IfOk result (λ x. HaveMore W.runs (AreAllUnits table.now.flows (slots_in x.runs)) table.now.ports
        wires.old.items wires.new.items) }
    ensures wires { HaveServed W.runs (online_opening table.now weights.now) arrivals.now every wires.old.items
        wires.new.items }
    ensures fault { (port : ℕ) → result ≡ Err (WireFault port) → (port < table.now.ports) ×
        ((b a : W) → Rose (W.faults (slice_index_or wires.old.items port b))
        (W.faults (slice_index_or wires.new.items port a))) }
    ensures stops { (port : ℕ) → result ≡ Err (WireFault port) →
        HaveStopped W.runs (IsOnlineBegun (online_opening table.now weights.now) arrivals.now every)
        (online_opening table.now weights.now) port wires.old.items wires.new.items }
    ensures too_many { (count : ℕ) → result ≡ Err (TooMany count) →
        PublishesTooMany (online_opening table.now weights.now) arrivals.now every count }
{
    let progress = served(alloc, rt, table, weights, arrivals, every, agents, wires)?;
    let released = released_by(alloc, table, weights, arrivals, Threshold::One)?;
    let Progress {
        epochs,
        schedule,
        ..
    } = progress;
    let online = told(alloc, table, weights, &released, epochs, schedule)?;
    Ok(online)
}

/// What is kept of the online run that was served to its end.
fn served<R: Threads + Wait + Sync, W: Wire + Send>(
    alloc: Global,
    rt: &R,
    table: &Table,
    weights: &[u64],
    arrivals: &[u64],
    every: u64,
    agents: u32,
    wires: &mut Vec<W>,
) -> Result<Progress, OnlineFault>
    requires weight_each { length weights.now ≡ length table.now.ids }
    requires weight_range { All (λ w. (1 ≤ w) × (w ≤ MAX_WEIGHT)) weights.now }
    requires arrival_each { length arrivals.now ≡ length table.now.ids }
    requires arrival_range { All (λ a. a ≤ MAX_ARRIVAL + 1) arrivals.now }
    requires epoch_some { 1 ≤ every }
    requires epoch_fits { every ≤ MAX_OPTION_SLOTS }
    requires agents { 1 ≤ agents }
    requires wires { table.now.ports ≤ length wires.old.items }
    ensures ends { IfOk result (EndsAs (online_opening table.now weights.now) arrivals.now every) }
    ensures names { IfOk result (λ p. NamesFlows (length table.now.flows) p.schedule) }
    ensures sent { IfOk result (λ p. HaveMore W.runs (AreAllUnits table.now.flows p.schedule) table.now.ports
        wires.old.items wires.new.items) }
    ensures wires { HaveServed W.runs (online_opening table.now weights.now) arrivals.now every wires.old.items
        wires.new.items }
    ensures fault { (port : ℕ) → result ≡ Err (WireFault port) → (port < table.now.ports) ×
        ((b a : W) → Rose (W.faults (slice_index_or wires.old.items port b))
        (W.faults (slice_index_or wires.new.items port a))) }
    ensures stops { (port : ℕ) → result ≡ Err (WireFault port) →
        HaveStopped W.runs (IsOnlineBegun (online_opening table.now weights.now) arrivals.now every)
        (online_opening table.now weights.now) port wires.old.items wires.new.items }
    ensures too_many { (count : ℕ) → result ≡ Err (TooMany count) →
        PublishesTooMany (online_opening table.now weights.now) arrivals.now every count }
{
    let Begun {
        hall,
        runner,
        mut kept,
    } = begin(alloc, table, weights, arrivals, every)?;
    let answer = serve_by_camp(alloc, rt, &hall, runner, table, &mut kept, agents, wires);
    drop(hall);
    let progress = progress_of(kept);
    match answer {
        Ok(()) => Ok(progress),
        Err(fault) => Err(fault),
    }
}

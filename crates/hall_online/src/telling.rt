//! The online run of a table, served by a hall, as a text.
ghost use Rattle.std.specs.Prelude.{◌≡◌, ℕ, ◌≤◌, All, Err, IfOk, length};
ghost use Rattle.coflow_units.specs.declared.limits.TheConstants.{MAX_OPTION_SLOTS, MAX_WEIGHT};
ghost use Rattle.hall_online.specs.declared.answer.OnlineFault.TheVariants.{TooMany, WireFault};
ghost use Rattle.hall_online.specs.Told.{FailsAt, PublishesMore, SendsAll, SendsSoFar, StopsShort, TellsOnline};

use crate::answer::OnlineFault;
use crate::online::serve_online;
use flow_table::Table;
use online_check::arrivals_of;
use online_runs::laws::online_runs_are_one;
use online_text::write_online;
use outside::Wire;
use release_bound::laws::{released_is_bound, released_ordering_is_feasible};
use report_text::Text;
use std::alloc::Global;
use std::sync::Wait;
use std::thread::Threads;

/// The text of the online run of the coflows of a table, whose units were sent. A slot takes `slot_ms` milliseconds, at
/// least one, and a coflow joins at the first slot's end that comes at its arrival or next after it. An epoch has
/// `every` slots, from 1 to 2^40. There is one weight for each coflow, from 1 to 2^32. So many agents beside each
/// other, at most one a port and started once for all runs, send the units, each on the wire of its ingress port;
/// further wires are left alone. While it runs the agents have the wires, and at every answer the vector has them
/// again, in their order. The text is the same for any number of agents.
///
/// `WireFault` comes only where the count of that port's wire rose in this call. It is the least port at which a unit
/// of the last run is missing, and no further run is opened after it. `TooMany` comes only where more than 8192 orders
/// would be published. `NoMemory` is want of memory. At every answer what was sent are units of the one online run,
/// none twice and none in a slot at or before its coflow's arrival; where there is a text, all of them.
pub fn served_online<R: Threads + Wait + Sync, W: Wire + Send>(
    alloc: Global,
    rt: &R,
    table: &Table,
    weights: &[u64],
    slot_ms: u64,
    every: u64,
    agents: u32,
    wires: &mut Vec<W>,
) -> Result<Text, OnlineFault>
    requires weight_each { length weights.now ≡ length table.now.ids }
    requires weight_range { All (λ w. (1 ≤ w) × (w ≤ MAX_WEIGHT)) weights.now }
    requires slot_some { 1 ≤ slot_ms }
    requires epoch_some { 1 ≤ every }
    requires epoch_fits { every ≤ MAX_OPTION_SLOTS }
    requires agents { 1 ≤ agents }
    requires wires { table.now.ports ≤ length wires.old.items }
    ensures text { IfOk result (λ text. (told : TellsOnline table.now weights.now slot_ms every text) ×
        SendsAll W.runs wires.old.items wires.new.items table.now told.online) }
    ensures sent { SendsSoFar W.runs wires.old.items wires.new.items table.now weights.now slot_ms every }
    ensures fault { (port : ℕ) → result ≡ Err (WireFault port) → FailsAt W.faults wires.old.items wires.new.items
        port table.now }
    ensures stops { (port : ℕ) → result ≡ Err (WireFault port) →
        StopsShort W.runs wires.old.items wires.new.items port table.now weights.now slot_ms every }
    ensures too_many { (count : ℕ) → result ≡ Err (TooMany count) →
        PublishesMore table.now weights.now slot_ms every count }
{
    online_runs_are_one();
    released_is_bound();
    released_ordering_is_feasible();
    let _within = table.coflows();
    let arrivals = arrivals_of(alloc, table, slot_ms)?;
    let online = serve_online(alloc, rt, table, weights, &arrivals, every, agents, wires)?;
    let text = write_online(alloc, online)?;
    Ok(text)
}

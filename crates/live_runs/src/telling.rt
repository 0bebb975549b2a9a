//! A run of `live` over a table, served by a hall, as a text.
ghost use Rattle.std.specs.Prelude.{◌≡◌, ℕ, ◌≤◌, All, Err, IfOk, length, sum_by};
ghost use Rattle.coflow_units.specs.declared.fabric.Flow.{Flow};
ghost use Rattle.coflow_units.specs.declared.limits.TheConstants.{MAX_LIVE_UNITS, MAX_WEIGHT};
ghost use Rattle.live_serving.specs.declared.answer.LiveFault.TheVariants.{WireFault};
ghost use Rattle.live_runs.specs.Read.{IsRead};
ghost use Rattle.live_runs.specs.Told.{FailsAt, SendsAll, SendsSoFar, TellsLive, served_in};

use crate::laws::scripts_may_be_asked;
use crate::limit::limit_of_read;
use crate::running::run_live;
use coflow_units::Items;
use flow_table::Table;
use live_rounds::Gate;
use live_serving::LiveFault;
use live_text::write_live;
use outside::Wire;
use report_text::Text;
use std::alloc::Global;
use std::sync::Wait;
use std::thread::Threads;
use workload::Script;

/// The text of a run of a script over a table of at most 2^20 units, with these weights, one for each coflow, from 1 to
/// 2^32. The script is one that was read over the table's coflows. Each of its clients has a thread of its own, and
/// passes its gate before each command. Runs of at most `most` slots are opened beside the rounds that ask for one, and
/// after the last round until nothing is left. So many agents beside each other send the units, each on the wire of its
/// ingress port; further wires are left alone.
///
/// `WireFault` comes only where the count of that port's wire rose in this call. It is the least port at which a unit
/// of the last run is missing, and no run is opened after it. `NoMemory` is want of memory. At every answer what was
/// sent are units of the schedule of one legal journal, none twice; where there is a text, of the one that it has.
pub fn served_live<R: Threads + Wait + Sync, W: Wire + Send, G: Gate + Send>(
    alloc: Global,
    rt: &R,
    table: Table,
    weights: Items<u64>,
    script: &Script,
    most: u64,
    agents: u32,
    gates: &mut [G],
    wires: &mut Vec<W>,
) -> Result<Text, LiveFault>
    requires each_weight { length weights ≡ length table.ids }
    requires weight { All (λ w. (1 ≤ w) × (w ≤ MAX_WEIGHT)) weights }
    requires shared { sum_by (λ (x : Flow). x.units) table.flows ≤ MAX_LIVE_UNITS }
    requires script { IsRead table.ids script.now }
    requires most { 1 ≤ most }
    requires agents { 1 ≤ agents }
    requires gates { script.now.clients ≤ length gates.old }
    requires wires { table.ports ≤ length wires.old.items }
    ensures text { IfOk result (λ text. (told : TellsLive table weights script.now most text) ×
        SendsAll W.runs wires.old.items wires.new.items table (served_in table weights script.now told.journal)) }
    ensures sent { SendsSoFar W.runs wires.old.items wires.new.items table weights script.now }
    ensures fault { (port : ℕ) → result ≡ Err (WireFault port) →
        FailsAt W.faults W.runs wires.old.items wires.new.items port table weights script.now }
{
    scripts_may_be_asked();
    let limit = limit_of_read(&table, script);
    let live = run_live(
        alloc, rt, table, weights, limit, script, most, agents, gates, wires,
    )?;
    let text = write_live(alloc, live)?;
    Ok(text)
}

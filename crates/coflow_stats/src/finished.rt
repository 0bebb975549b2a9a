//! The coflows of a schedule.
ghost use Rattle.std.specs.Prelude.{◌≡◌, ◌<◌, ◌≤◌, ℕ, IfOk, length, slice_index, sum_by};
ghost use Rattle.coflow_units.specs.declared.fabric.Flow.{Flow};
ghost use Rattle.coflow_units.specs.declared.limits.TheConstants.{MAX_FLOWS, MAX_UNITS};
ghost use Rattle.flow_table.specs.Table.{IsTable};
ghost use Rattle.port_load.specs.Bottleneck.{IsBottleneck};
ghost use Rattle.schedule_model.specs.RunList.{IsKept, NamesFlows, slots_in};
ghost use Rattle.coflow_stats.specs.Finished.{AreFinished, HasSizes, IsGreatestLoad, flows_in};

use crate::value::Finished;
use coflow_units::{Flow, Items, NoMemory};
use flow_table::Table;
use port_load::{Loads, bottleneck};
use run_list::Runs;
use schedule_model::completions_of_runs;
use std::alloc::Global;

/// What is told of each coflow of a table, by number, in the schedule of these runs, with a weight and an arrival for
/// each coflow. The arrival is the slot after which it may be served. The numbers in the runs are flows'. The error is
/// want of memory.
pub fn finished_of(
    alloc: Global,
    table: &Table,
    weights: &[u64],
    arrivals: &[u64],
    runs: &Runs,
) -> Result<Items<Finished>, NoMemory>
    requires weights { length weights.now ≡ length table.now.ids }
    requires arrivals { length arrivals.now ≡ length table.now.ids }
    requires kept { IsKept runs.now }
    requires names { NamesFlows (length table.now.flows) (slots_in runs.now) }
    ensures { IfOk result (λ coflows.
        AreFinished table.now weights.now (slice_index arrivals.now) (slots_in runs.now) coflows) }
{
    let bottlenecks = bottlenecks_of(alloc, table)?;
    let ends = completions_of_runs(alloc, table.flows(), table.coflows(), runs)?;
    let mut coflows = Vec::new(alloc);
    for coflow in 0..table.coflows() {
        let place = coflow as usize;
        let sizes = sizes_in(table, coflow);
        coflows.push(Finished {
            id: table.id(coflow),
            arrival: arrivals[place],
            flows: sizes.flows,
            units: sizes.units,
            longest: sizes.longest,
            bottleneck: bottlenecks[place],
            weight: weights[place],
            completion: ends[place],
        })?;
    }
    Ok(Items::from_vec(coflows))
}

/// How many flows a coflow has, how many units they have together, and how many the longest has.
#[derive(Clone, Copy)]
struct Sizes {
    flows: u32,
    units: u64,
    longest: u64,
}

/// The sizes of a coflow of a table.
fn sizes_in(table: &Table, coflow: u32) -> Sizes
    requires table { IsTable table.now }
    requires coflow { coflow < length table.now.ids }
    ensures { HasSizes (flows_in table.now coflow) result }
{
    sizes_of(table.of_coflow(coflow))
}

/// The sizes of a coflow with these flows: at most 2^20 flows, with at most 2^40 units.
fn sizes_of(flows: &[Flow]) -> Sizes
    requires few { length flows.now ≤ MAX_FLOWS }
    requires few_units { sum_by (λ (x : Flow). x.units) flows.now ≤ MAX_UNITS }
    ensures { HasSizes flows.now result }
{
    let mut units = 0;
    let mut longest = 0;
    for flow in flows {
        units += flow.units;
        longest = flow.units.max(longest);
    }
    Sizes {
        flows: flows.len() as u32,
        units,
        longest,
    }
}

/// The greatest load of each coflow of a table, by number. The error is want of memory.
fn bottlenecks_of(alloc: Global, table: &Table) -> Result<Vec<u64>, NoMemory>
    ensures count { IfOk result (λ bottlenecks. length bottlenecks.items ≡ length table.now.ids) }
    ensures greatest { IfOk result (λ bottlenecks. (c : ℕ) → c < length table.now.ids →
        IsGreatestLoad table.now c (slice_index bottlenecks.items c)) }
{
    let loads = Loads::of(alloc, table.flows(), table.coflows(), table.ports())?;
    let bottlenecks = bottlenecks_in(alloc, &loads)?;
    Ok(bottlenecks)
}

/// The greatest load of each coflow of a table of loads, by number.
fn bottlenecks_in(alloc: Global, loads: &Loads) -> Result<Vec<u64>, NoMemory>
    ensures count { IfOk result (λ bottlenecks. length bottlenecks.items ≡ loads.now.coflows) }
    ensures greatest { IfOk result (λ bottlenecks. (c : ℕ) → c < loads.now.coflows →
        IsBottleneck loads.now c (slice_index bottlenecks.items c)) }
{
    let mut bottlenecks = Vec::new(alloc);
    for coflow in 0..loads.coflows() {
        bottlenecks.push(bottleneck(loads, coflow))?;
    }
    Ok(bottlenecks)
}

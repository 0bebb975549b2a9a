//! The numbers of a schedule.
ghost use Rattle.std.specs.Prelude.{◌≡◌, ◌≤◌, ◌*◌, ◌^◌, All, IfOk, length, map};
ghost use Rattle.coflow_units.specs.declared.limits.TheConstants.{MAX_COFLOWS, MAX_SLOT, MAX_WEIGHT};
ghost use Rattle.schedule_model.specs.RunList.{slots_in};
ghost use Rattle.coflow_stats.specs.declared.value.Finished.{Finished};
ghost use Rattle.coflow_stats.specs.Groups.{duration, durations_of};
ghost use Rattle.coflow_stats.specs.Stats.{IsSmall, IsStats, IsWritable, arrivals_if, weighted_arrival, weighted_arrivals};
ghost use Rattle.coflow_stats.specs.Summary.{IsSummary};

use crate::groups::{duration, durations_of};
use crate::summary::summary_of;
use crate::value::{Finished, Group, Stats, Summary, Totals};
use coflow_units::NoMemory;
use run_list::Runs;
use std::alloc::Global;

/// The numbers of the schedule of these runs with these coflows, where a unit has so many megabytes. There are at most
/// 4096 coflows, with weights of at most 2^32, and at most 2^41 - 1 slots. The error is want of memory.
pub fn stats_of(
    alloc: Global,
    unit: u64,
    totals: Totals,
    runs: &Runs,
    coflows: &[Finished],
) -> Result<Stats, NoMemory>
    requires slots { length (slots_in runs.now) ≤ MAX_SLOT }
    requires few { length coflows.now ≤ MAX_COFLOWS }
    requires weights { All (λ (x : Finished). x.weight ≤ MAX_WEIGHT) coflows.now }
    ensures stats { IfOk result (λ stats. IsStats unit totals (slots_in runs.now) coflows.now stats) }
    ensures writable { totals.cost ≤ 2 ^ 100 → IfOk result IsWritable }
{
    let all = summary_of_all(alloc, coflows)?;
    let short_narrow = summary_of_group(alloc, Group::ShortNarrow, unit, coflows)?;
    let long_narrow = summary_of_group(alloc, Group::LongNarrow, unit, coflows)?;
    let short_wide = summary_of_group(alloc, Group::ShortWide, unit, coflows)?;
    let long_wide = summary_of_group(alloc, Group::LongWide, unit, coflows)?;
    Ok(Stats {
        bound: totals.bound,
        cost: totals.cost,
        arrivals: arrivals_if(totals.online, coflows),
        makespan: makespan(runs),
        all,
        short_narrow,
        long_narrow,
        short_wide,
        long_wide,
    })
}

/// The summary of the durations of all coflows.
fn summary_of_all(alloc: Global, coflows: &[Finished]) -> Result<Summary, NoMemory>
    requires { length coflows.now ≤ MAX_COFLOWS }
    ensures summary { IfOk result (λ summary. IsSummary (map duration coflows.now) summary) }
    ensures small { IfOk result IsSmall }
{
    let mut durations = Vec::new(alloc);
    for coflow in coflows {
        durations.push(duration(coflow))?;
    }
    summary_of(alloc, &durations)
}

/// The summary of the durations of the coflows of a group.
fn summary_of_group(
    alloc: Global,
    group: Group,
    unit: u64,
    coflows: &[Finished],
) -> Result<Summary, NoMemory>
    requires { length coflows.now ≤ MAX_COFLOWS }
    ensures summary { IfOk result (λ summary. IsSummary (durations_of group unit coflows.now) summary) }
    ensures small { IfOk result IsSmall }
{
    let durations = durations_of(alloc, group, unit, coflows)?;
    summary_of(alloc, &durations)
}

/// What arrivals cost every schedule, of an online run alone.
fn arrivals_if(online: bool, coflows: &[Finished]) -> Option<u128>
    requires few { length coflows.now ≤ MAX_COFLOWS }
    requires weights { All (λ (x : Finished). x.weight ≤ MAX_WEIGHT) coflows.now }
    ensures { result ≡ arrivals_if online coflows.now }
{
    if !online {
        return None;
    }
    Some(weighted_arrivals(coflows))
}

/// The sum of weight times arrival, of the coflows that have units.
fn weighted_arrivals(coflows: &[Finished]) -> u128
    requires few { length coflows.now ≤ MAX_COFLOWS }
    requires weights { All (λ (x : Finished). x.weight ≤ MAX_WEIGHT) coflows.now }
    ensures { result ≡ weighted_arrivals coflows.now }
{
    let mut total = 0;
    for coflow in coflows {
        total += weighted_arrival(coflow);
    }
    total
}

/// Weight times arrival, or 0 where the coflow has no units.
fn weighted_arrival(coflow: &Finished) -> u128
    requires { coflow.now.weight ≤ MAX_WEIGHT }
    ensures product { result ≡ weighted_arrival coflow.now }
    ensures small { result ≤ 2 ^ 96 }
{
    if coflow.units == 0 {
        return 0;
    }
    u128::from(coflow.weight) * u128::from(coflow.arrival)
}

/// How many slots the runs have.
fn makespan(runs: &Runs) -> u64
    requires { length (slots_in runs.now) ≤ MAX_SLOT }
    ensures { result ≡ length (slots_in runs.now) }
{
    let mut slots = 0;
    for place in 0..runs.count() {
        slots += runs.slots(place);
    }
    slots
}

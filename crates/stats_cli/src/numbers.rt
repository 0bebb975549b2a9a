//! The text of the numbers of a report.
ghost use Rattle.std.specs.Prelude.{◌≡◌, ◌<◌, ◌≤◌, ◌^◌, ℕ, All, IfErr, IfOk, List, None, Some, length, slice_index};
ghost use Rattle.coflow_stats.specs.Finished.{AreFinished};
ghost use Rattle.coflow_stats.specs.Stats.{IsStats};
ghost use Rattle.coflow_stats.specs.Text.{stats_text};
ghost use Rattle.coflow_stats.specs.declared.value.Finished.{Finished};
ghost use Rattle.coflow_stats.specs.declared.value.Stats.{Stats};
ghost use Rattle.coflow_units.specs.declared.limits.TheConstants.{MAX_COFLOWS, MAX_SLOT, MAX_WEIGHT};
ghost use Rattle.flow_table.specs.Table.{IsTable, instance_of};
ghost use Rattle.online_check.specs.AnyReport.{IsAnyReport};
ghost use Rattle.stats_cli.specs.Numbers.{AreNumbers, HasNoNumbers, IsTextBy, arrival_in};
ghost use Rattle.stats_cli.specs.Rests.{RestsOn, runs_in, slots_of, totals_of};
ghost use Rattle.stats_cli.specs.Words.{ms_in, said_by};

use crate::checking::check_report;
use crate::status::StatsStatus;
use crate::value::StatsWords;
use coflow_stats::{Finished, Totals, finished_of, stats_of, write_rows, write_stats};
use coflow_units::{Items, NoMemory};
use command_files::Input;
use flow_table::Table;
use online_check::laws::yes_bounds_released_schedules;
use online_check::{AnyReport, arrivals_of};
use run_list::Runs;
use std::alloc::Global;

/// The text of the numbers of a report, which is checked first.
pub(crate) fn text_of<'a>(
    alloc: Global,
    words: StatsWords<'a>,
    input: &Input,
    report: &AnyReport,
) -> Result<Vec<u8>, StatsStatus>
    requires count { length input.now.weights ≡ length input.now.table.ids }
    requires weights { All (λ w. w ≤ MAX_WEIGHT) input.now.weights }
    requires report { IsAnyReport report.now }
    requires table { IsTable input.now.table }
    ensures numbers { IfOk result (λ text.
        AreNumbers input.now.table input.now.weights (said_by words.entry) report.now text.items) }
    ensures cause { IfErr result (HasNoNumbers input.now.table input.now.weights (said_by words.entry) report.now) }
{
    check_report(alloc, words, input, report)?;
    yes_bounds_released_schedules();
    let text = text_of_right(alloc, words, input, report)?;
    Ok(text)
}

/// The text of the numbers of a right report.
fn text_of_right<'a>(
    alloc: Global,
    words: StatsWords<'a>,
    input: &Input,
    report: &AnyReport,
) -> Result<Vec<u8>, NoMemory>
    requires count { length input.now.weights ≡ length input.now.table.ids }
    requires weights { All (λ w. w ≤ MAX_WEIGHT) input.now.weights }
    requires report { IsAnyReport report.now }
    requires rests { RestsOn (instance_of input.now.table input.now.weights)
        (arrival_in input.now.table (said_by words).slot_ms report.now) report.now }
    requires table { IsTable input.now.table }
    ensures { IfOk result (λ text. (coflows : List Finished) × AreFinished input.now.table input.now.weights
        (arrival_in input.now.table (said_by words.entry).slot_ms report.now) (slots_of report.now) coflows ×
        IsTextBy (said_by words.entry).csv (said_by words.entry) report.now coflows text.items) }
{
    let coflows = coflows_of(alloc, words, input, report)?;
    if words.csv {
        return write_rows(alloc, words.unit.megabytes, coflows.as_slice());
    }
    write_summaries(alloc, words, report, coflows.as_slice())
}

/// The coflows of the schedule of a right report, by number.
fn coflows_of<'a>(
    alloc: Global,
    words: StatsWords<'a>,
    input: &Input,
    report: &AnyReport,
) -> Result<Items<Finished>, NoMemory>
    requires count { length input.now.weights ≡ length input.now.table.ids }
    requires report { IsAnyReport report.now }
    requires rests { RestsOn (instance_of input.now.table input.now.weights)
        (arrival_in input.now.table (said_by words).slot_ms report.now) report.now }
    ensures { IfOk result (AreFinished input.now.table input.now.weights
        (arrival_in input.now.table (said_by words.entry).slot_ms report.now) (slots_of report.now)) }
{
    let table = &input.table;
    let arrivals = arrivals_by(alloc, words.slot_ms, table, report)?;
    let weights = input.weights.as_slice();
    let coflows = finished_of(alloc, table, weights, &arrivals, runs_of(report))?;
    Ok(coflows)
}

/// The slot after which each coflow may be served, by number, where a slot takes so many milliseconds, at least one.
fn arrivals_by(
    alloc: Global,
    slot_ms: u64,
    table: &Table,
    report: &AnyReport,
) -> Result<Vec<u64>, NoMemory>
    requires some { 1 ≤ slot_ms }
    ensures count { IfOk result (λ arrivals. length arrivals.items ≡ length table.now.ids) }
    ensures each { IfOk result (λ arrivals. (coflow : ℕ) → coflow < length table.now.ids →
        slice_index arrivals.items coflow ≡ arrival_in table.now slot_ms report.now coflow) }
{
    match report {
        AnyReport::Plan(_) => zeros(alloc, table),
        AnyReport::Online(_) => arrivals_of(alloc, table, slot_ms),
    }
}

/// A zero for each coflow.
fn zeros(alloc: Global, table: &Table) -> Result<Vec<u64>, NoMemory>
    ensures count { IfOk result (λ zeros. length zeros.items ≡ length table.now.ids) }
    ensures each { IfOk result (λ zeros. (coflow : ℕ) → slice_index zeros.items coflow ≡ 0) }
{
    let zeros = vec![in alloc; 0u64; table.coflows() as usize]?;
    Ok(zeros)
}

/// The runs of a report.
fn runs_of(report: &AnyReport) -> &Runs
    ensures { result.now ≡ runs_in report.now }
{
    match report {
        AnyReport::Plan(plan) => &plan.runs,
        AnyReport::Online(online) => &online.runs,
    }
}

/// The bound and the cost of a report.
fn totals_of(report: &AnyReport) -> Totals
    ensures { result ≡ totals_of report.now }
{
    match report {
        AnyReport::Plan(plan) => Totals {
            bound: plan.bound,
            cost: plan.cost,
            online: false,
        },
        AnyReport::Online(online) => Totals {
            bound: online.total,
            cost: online.cost,
            online: true,
        },
    }
}

/// The text of the numbers of all coflows.
fn write_summaries<'a>(
    alloc: Global,
    words: StatsWords<'a>,
    report: &AnyReport,
    coflows: &[Finished],
) -> Result<Vec<u8>, NoMemory>
    requires slots { length (slots_of report.now) ≤ MAX_SLOT }
    requires few { length coflows.now ≤ MAX_COFLOWS }
    requires weights { All (λ (x : Finished). x.weight ≤ MAX_WEIGHT) coflows.now }
    requires cost { (totals_of report.now).cost ≤ 2 ^ 100 }
    ensures { IfOk result (λ text. (s : Stats) × IsStats (said_by words.entry).unit (totals_of report.now)
        (slots_of report.now) coflows.now s × (text.items ≡ stats_text s (ms_in (said_by words.entry)))) }
{
    let totals = totals_of(report);
    let stats = stats_of(
        alloc,
        words.unit.megabytes,
        totals,
        runs_of(report),
        coflows,
    )?;
    write_stats(alloc, &stats, ms_of(words))
}

/// The milliseconds of a slot, where numbers are told in milliseconds too.
fn ms_of<'a>(words: StatsWords<'a>) -> Option<u64>
    ensures { result ≡ ms_in (said_by words.entry) }
{
    if words.in_ms {
        return Some(words.slot_ms);
    }
    None
}

//! Whether a report is right enough for its numbers to be told.
ghost use Rattle.std.specs.Prelude.{◌≡◌, ◌↔◌, ◌≤◌, All, IfErr, IsTrue, OnOk, length};
ghost use Rattle.coflow_units.specs.declared.limits.TheConstants.{MAX_WEIGHT};
ghost use Rattle.online_check.specs.AnyReport.{IsAnyReport};
ghost use Rattle.online_check.specs.declared.any_report.AnyReport.TheVariants as any;
ghost use Rattle.report_text.specs.Report.{IsReport};
ghost use Rattle.stats_cli.specs.Numbers.{HasNoNumbers, IsAccepted, IsRun, IsYesButForRatio};
ghost use Rattle.stats_cli.specs.Words.{said_by};

use crate::status::StatsStatus;
use crate::value::StatsWords;
use cert_check::{Reason, Verdict};
use command_files::Input;
use online_check::{AnyReport, judge, verdict_on};
use report_text::Report;
use std::alloc::Global;

/// Checks a report. The error is `No` where it is not right, but for the ratio of the cost of a plan to its bound.
pub(crate) fn check_report<'a>(
    alloc: Global,
    words: StatsWords<'a>,
    input: &Input,
    report: &AnyReport,
) -> Result<(), StatsStatus>
    requires count { length input.now.weights ≡ length input.now.table.ids }
    requires weights { All (λ w. w ≤ MAX_WEIGHT) input.now.weights }
    requires report { IsAnyReport report.now }
    ensures accepted { OnOk result
        (IsAccepted input.now.table input.now.weights (said_by words.entry).slot_ms report.now) }
    ensures cause { IfErr result (HasNoNumbers input.now.table input.now.weights (said_by words.entry) report.now) }
{
    match report {
        AnyReport::Plan(plan) => check_plan(alloc, words, input, plan),
        AnyReport::Online(_) => check_online(alloc, words, input, report),
    }
}

/// Checks the report of a plan.
fn check_plan<'a>(
    alloc: Global,
    words: StatsWords<'a>,
    input: &Input,
    report: &Report,
) -> Result<(), StatsStatus>
    requires count { length input.now.weights ≡ length input.now.table.ids }
    requires weights { All (λ w. w ≤ MAX_WEIGHT) input.now.weights }
    requires report { IsReport report.now }
    ensures accepted { OnOk result
        (IsAccepted input.now.table input.now.weights (said_by words.entry).slot_ms (any.Plan report.now)) }
    ensures cause { IfErr result
        (HasNoNumbers input.now.table input.now.weights (said_by words.entry) (any.Plan report.now)) }
{
    let verdict = verdict_on(alloc, &input.table, input.weights.as_slice(), report)?;
    if is_yes_but_for_ratio(verdict) {
        return Ok(());
    }
    Err(StatsStatus::No)
}

/// Whether the verdict is yes, or a no by the ratio of cost to bound alone.
fn is_yes_but_for_ratio(verdict: Verdict) -> bool
    ensures { IsTrue result ↔ IsYesButForRatio verdict }
{
    matches!(
        verdict,
        Verdict::Yes | Verdict::No(Reason::RatioBroken { cost: _, most: _ })
    )
}

/// Checks an online run.
fn check_online<'a>(
    alloc: Global,
    words: StatsWords<'a>,
    input: &Input,
    report: &AnyReport,
) -> Result<(), StatsStatus>
    requires count { length input.now.weights ≡ length input.now.table.ids }
    requires weights { All (λ w. w ≤ MAX_WEIGHT) input.now.weights }
    requires report { IsAnyReport report.now }
    requires run { IsRun report.now }
    ensures accepted { OnOk result
        (IsAccepted input.now.table input.now.weights (said_by words.entry).slot_ms report.now) }
    ensures cause { IfErr result (HasNoNumbers input.now.table input.now.weights (said_by words.entry) report.now) }
{
    let weights = input.weights.as_slice();
    let judged = judge(alloc, &input.table, weights, words.slot_ms, report)?;
    let is_right = judged.yes;
    drop(judged);
    if is_right {
        return Ok(());
    }
    Err(StatsStatus::No)
}

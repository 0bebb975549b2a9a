//! The verdict on a report.
ghost use Rattle.std.specs.Prelude.{◌≡◌, ◌↔◌, ◌≤◌, ℕ, All, IfOk, IsTrue, length, slice_index};
ghost use Rattle.coflow_units.specs.declared.limits.TheConstants.{MAX_WEIGHT};
ghost use Rattle.cert_check.specs.declared.verdict.Verdict.{Verdict};
ghost use Rattle.cert_check.specs.Reasons.{IsVerdict, NamesCoflowIfAny};
ghost use Rattle.cert_check.specs.Sound.{IsSound};
ghost use Rattle.flow_table.specs.Table.{instance_of};
ghost use Rattle.online_check.specs.Arrivals.{arrivals_in};
ghost use Rattle.online_check.specs.Reasons.{IsOnlineVerdict, NamesOneOfIfAny};
ghost use Rattle.online_check.specs.Sound.{IsSoundOnline};
ghost use Rattle.online_check.specs.declared.verdict.OnlineVerdict.{OnlineVerdict};
ghost use Rattle.online_text.specs.Online.{IsOnline};
ghost use Rattle.report_text.specs.Report.{IsReport};
ghost use Rattle.online_check.specs.AnyReport.{IsAnyReport};
ghost use Rattle.online_check.specs.Judged.{IsJudged, IsRight};
ghost use Rattle.online_check.specs.declared.any_report.AnyReport.TheVariants as any;

use crate::any_report::AnyReport;
use crate::arrivals::arrivals_of;
use crate::checking::check_online;
use crate::online_line::{online_reason_text, online_yes_text};
use crate::verdict::OnlineVerdict;
use crate::verdict_line::verdict_text;
use cert_check::{Verdict, check};
use coflow_units::NoMemory;
use flow_table::Table;
use online_text::Online;
use port_load::Loads;
use report_text::Report;
use std::alloc::Global;

/// A verdict that is told in a line: whether it is yes, and the line with its line feed.
#[derive(Drop)]
pub struct Judged {
    pub yes: bool,
    pub line: Vec<u8>,
}

/// The verdict on a report of either kind, for the coflows of a table, and its line. `weights` has the weight of each
/// coflow, at most 2^32. A slot takes `slot_ms` milliseconds, at least one: coflows arrive at their milliseconds over
/// these, rounded up, which the report of a plan says nothing of. The error is want of memory.
pub fn judge(
    alloc: Global,
    table: &Table,
    weights: &[u64],
    slot_ms: u64,
    report: &AnyReport,
) -> Result<Judged, NoMemory>
    requires some { 1 ≤ slot_ms }
    requires count { length weights.now ≡ length table.now.ids }
    requires weights { All (λ w. w ≤ MAX_WEIGHT) weights.now }
    requires report { IsAnyReport report.now }
    ensures judged { IfOk result (λ j. IsJudged (instance_of table.now weights.now)
        (slice_index (arrivals_in table.now slot_ms)) table.now.ids report.now j.yes j.line.items) }
    ensures yes { IfOk result (λ j. IsTrue j.yes ↔ IsRight (instance_of table.now weights.now)
        (slice_index (arrivals_in table.now slot_ms)) table.now.ids report.now) }
{
    match report {
        AnyReport::Plan(report) => judge_plan(alloc, table, weights, report),
        AnyReport::Online(online) => judge_online(alloc, table, weights, slot_ms, online),
    }
}

/// The verdict on the report of a plan, and its line.
fn judge_plan(
    alloc: Global,
    table: &Table,
    weights: &[u64],
    report: &Report,
) -> Result<Judged, NoMemory>
    requires count { length weights.now ≡ length table.now.ids }
    requires weights { All (λ w. w ≤ MAX_WEIGHT) weights.now }
    requires report { IsReport report.now }
    ensures judged { IfOk result (λ j. (arrival : ℕ → ℕ) → IsJudged (instance_of table.now weights.now) arrival
        table.now.ids (any.Plan report.now) j.yes j.line.items) }
    ensures yes { IfOk result (λ j. IsTrue j.yes ↔
        IsSound (instance_of table.now weights.now) table.now.ids report.now) }
{
    let verdict = verdict_on(alloc, table, weights, report)?;
    let line = verdict_text(alloc, table, report, verdict)?;
    Ok(Judged {
        yes: matches!(verdict, Verdict::Yes),
        line,
    })
}

/// The verdict on an online run, and its line.
fn judge_online(
    alloc: Global,
    table: &Table,
    weights: &[u64],
    slot_ms: u64,
    online: &Online,
) -> Result<Judged, NoMemory>
    requires some { 1 ≤ slot_ms }
    requires count { length weights.now ≡ length table.now.ids }
    requires weights { All (λ w. w ≤ MAX_WEIGHT) weights.now }
    requires online { IsOnline online.now }
    ensures judged { IfOk result (λ j. IsJudged (instance_of table.now weights.now)
        (slice_index (arrivals_in table.now slot_ms)) table.now.ids (any.Online online.now) j.yes j.line.items) }
    ensures yes { IfOk result (λ j. IsTrue j.yes ↔ IsSoundOnline (instance_of table.now weights.now)
        (slice_index (arrivals_in table.now slot_ms)) table.now.ids online.now) }
{
    match online_verdict_on(alloc, table, weights, slot_ms, online)? {
        OnlineVerdict::Yes => Ok(Judged {
            yes: true,
            line: online_yes_text(alloc, online)?,
        }),
        OnlineVerdict::No(reason) => Ok(Judged {
            yes: false,
            line: online_reason_text(alloc, table, reason)?.into_bytes(),
        }),
    }
}

/// The verdict on an online run, for the coflows of a table that arrive by slots of so many milliseconds: yes, or the
/// first reason why it is not right.
fn online_verdict_on(
    alloc: Global,
    table: &Table,
    weights: &[u64],
    slot_ms: u64,
    online: &Online,
) -> Result<OnlineVerdict, NoMemory>
    requires some { 1 ≤ slot_ms }
    requires count { length weights.now ≡ length table.now.ids }
    requires weights { All (λ w. w ≤ MAX_WEIGHT) weights.now }
    requires online { IsOnline online.now }
    ensures verdict { IfOk result (IsOnlineVerdict (instance_of table.now weights.now)
        (slice_index (arrivals_in table.now slot_ms)) table.now.ids online.now) }
    ensures yes { IfOk result (λ verdict. (verdict ≡ OnlineVerdict.Yes) ↔ IsSoundOnline
        (instance_of table.now weights.now) (slice_index (arrivals_in table.now slot_ms)) table.now.ids online.now) }
    ensures coflow { IfOk result (NamesOneOfIfAny (length table.now.ids)) }
{
    let arrivals = arrivals_of(alloc, table, slot_ms)?;
    let Ok(loads) = Loads::of(alloc, table.flows(), table.coflows(), table.ports()) else {
        drop(arrivals);
        return Err(NoMemory);
    };
    let checked = check_online(alloc, table, &loads, weights, &arrivals, online);
    drop(arrivals);
    drop(loads);
    let verdict = checked?;
    Ok(verdict)
}

/// The verdict on the report of a plan, for the coflows of a table: yes, or the first reason why it is not right.
/// `weights` has the weight of each coflow, at most 2^32. The error is want of memory.
pub fn verdict_on(
    alloc: Global,
    table: &Table,
    weights: &[u64],
    report: &Report,
) -> Result<Verdict, NoMemory>
    requires count { length weights.now ≡ length table.now.ids }
    requires weights { All (λ w. w ≤ MAX_WEIGHT) weights.now }
    requires report { IsReport report.now }
    ensures verdict { IfOk result (IsVerdict (instance_of table.now weights.now) table.now.ids report.now) }
    ensures yes { IfOk result (λ verdict. (verdict ≡ Verdict.Yes) ↔
        IsSound (instance_of table.now weights.now) table.now.ids report.now) }
    ensures coflow { IfOk result (NamesCoflowIfAny (length table.now.ids)) }
{
    let loads = Loads::of(alloc, table.flows(), table.coflows(), table.ports())?;
    let checked = check(alloc, table, &loads, weights, report);
    drop(loads);
    let verdict = checked?;
    Ok(verdict)
}

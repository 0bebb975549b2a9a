//! The picture of a report.
ghost use Rattle.std.specs.Prelude.{◌≡◌, ◌≤◌, All, IfErr, IfOk, OnOk, length, min};
ghost use Rattle.coflow_units.specs.declared.limits.TheConstants.{MAX_SLOT, MAX_WEIGHT};
ghost use Rattle.cert_check.specs.declared.verdict.Verdict.{Verdict};
ghost use Rattle.cert_check.specs.Places.{NamesEach, coflows_in};
ghost use Rattle.cert_check.specs.Reasons.{IsVerdict};
ghost use Rattle.cert_check.specs.Sound.{IsSound};
ghost use Rattle.flow_table.specs.Table.{instance_of};
ghost use Rattle.picture.specs.Layout.{IsDrawable};
ghost use Rattle.picture.specs.Order.{IsPlaces};
ghost use Rattle.online_check.specs.AnyReport.{IsAnyReport};
ghost use Rattle.online_check.specs.declared.any_report.AnyReport.TheVariants as any;
ghost use Rattle.report_text.specs.Report.{IsReport};
ghost use Rattle.schedule_model.specs.RunList.{slots_in};
ghost use Rattle.picture_cli.specs.Picture.{DrawsPlan, DrawsReport, HasNoPicture, HasVerdictCause, IsPictureOf, IsRight};
ghost use Rattle.picture_cli.specs.Words.{report_by};

use crate::run_drawing::{check_run, draw_run};
use crate::status::PictureStatus;
use crate::value::ReportWords;
use cert_check::{Named, Verdict, coflows_of};
use coflow_units::{Items, NoMemory};
use command_files::Input;
use flow_table::Table;
use online_check::{AnyReport, verdict_on};
use online_text::Online;
use picture::{Picture, Window, bars_of, curve_of, places_of, write_picture};
use report_text::{PlaceLine, Report};
use run_list::Runs;
use schedule_model::completions_of_runs;
use std::alloc::Global;

/// The text of the picture of a report, which is checked first.
pub(crate) fn picture_of<'a>(
    alloc: Global,
    words: ReportWords<'a>,
    input: &Input,
    report: &AnyReport,
) -> Result<Vec<u8>, PictureStatus>
    requires count { length input.now.weights ≡ length input.now.table.ids }
    requires weights { All (λ w. w ≤ MAX_WEIGHT) input.now.weights }
    requires report { IsAnyReport report.now }
    ensures right { OnOk result
        (IsRight input.now.table input.now.weights (report_by words.entry).slot_ms report.now) }
    ensures drawn { IfOk result (λ text.
        DrawsReport input.now.table input.now.weights report.now (report_by words.entry) text.items) }
    ensures cause { IfErr result
        (HasVerdictCause input.now.table input.now.weights report.now (report_by words.entry)) }
{
    match report {
        AnyReport::Plan(plan) => plan_text(alloc, words, input, plan),
        AnyReport::Online(online) => run_text(alloc, words, input, report, online),
    }
}

/// The text of the picture of an online run, which is checked first.
fn run_text<'a>(
    alloc: Global,
    words: ReportWords<'a>,
    input: &Input,
    report: &AnyReport,
    online: &Online,
) -> Result<Vec<u8>, PictureStatus>
    requires count { length input.now.weights ≡ length input.now.table.ids }
    requires weights { All (λ w. w ≤ MAX_WEIGHT) input.now.weights }
    requires report { IsAnyReport report.now }
    requires run { report.now ≡ any.Online online.now }
    ensures right { OnOk result
        (IsRight input.now.table input.now.weights (report_by words.entry).slot_ms report.now) }
    ensures drawn { IfOk result (λ text.
        DrawsReport input.now.table input.now.weights report.now (report_by words.entry) text.items) }
    ensures cause { IfErr result
        (HasVerdictCause input.now.table input.now.weights report.now (report_by words.entry)) }
{
    check_run(alloc, words, input, report)?;
    let text = draw_run(alloc, words, input, online)?;
    Ok(text)
}

/// The text of the picture of a plan, which is checked first.
fn plan_text<'a>(
    alloc: Global,
    words: ReportWords<'a>,
    input: &Input,
    report: &Report,
) -> Result<Vec<u8>, PictureStatus>
    requires count { length input.now.weights ≡ length input.now.table.ids }
    requires weights { All (λ w. w ≤ MAX_WEIGHT) input.now.weights }
    requires report { IsReport report.now }
    ensures right { OnOk result
        (IsVerdict (instance_of input.now.table input.now.weights) input.now.table.ids report.now Verdict.Yes) }
    ensures drawn { IfOk result (λ text.
        DrawsPlan input.now.table input.now.weights report.now (report_by words.entry) text.items) }
    ensures cause { IfErr result
        (HasVerdictCause input.now.table input.now.weights (any.Plan report.now) (report_by words.entry)) }
{
    match verdict_on(alloc, &input.table, input.weights.as_slice(), report)? {
        Verdict::Yes => draw_plan(alloc, words, input, report),
        Verdict::No(_) => Err(PictureStatus::No),
    }
}

/// The text of the picture of a right plan.
fn draw_plan<'a>(
    alloc: Global,
    words: ReportWords<'a>,
    input: &Input,
    report: &Report,
) -> Result<Vec<u8>, PictureStatus>
    requires count { length input.now.weights ≡ length input.now.table.ids }
    requires weights { All (λ w. w ≤ MAX_WEIGHT) input.now.weights }
    requires report { IsReport report.now }
    requires right { IsSound (instance_of input.now.table input.now.weights) input.now.table.ids report.now }
    ensures drawn { IfOk result (λ text.
        DrawsPlan input.now.table input.now.weights report.now (report_by words.entry) text.items) }
    ensures cause { IfErr result (HasNoPicture input.now.table (any.Plan report.now) (report_by words.entry)) }
{
    let picture = picture_in(alloc, words, input, report)?;
    let text = write_picture(alloc, &picture)?;
    Ok(text)
}

/// The picture of a right plan.
fn picture_in<'a>(
    alloc: Global,
    words: ReportWords<'a>,
    input: &Input,
    report: &Report,
) -> Result<Picture, PictureStatus>
    requires count { length input.now.weights ≡ length input.now.table.ids }
    requires weights { All (λ w. w ≤ MAX_WEIGHT) input.now.weights }
    requires report { IsReport report.now }
    requires right { IsSound (instance_of input.now.table input.now.weights) input.now.table.ids report.now }
    ensures shows { IfOk result
        (IsPictureOf input.now.table input.now.weights report.now (report_by words.entry)) }
    ensures drawable { IfOk result IsDrawable }
    ensures cause { IfErr result (HasNoPicture input.now.table (any.Plan report.now) (report_by words.entry)) }
{
    let runs = &report.runs;
    let window = window_in(words, runs);
    if window.last < window.first {
        return Err(PictureStatus::NoSlots {
            first: window.first,
            last: window.last,
        });
    }
    let table = &input.table;
    let rows = bars_of(alloc, table.flows(), table.ports(), runs, window)?;
    let ends = completions_of_runs(alloc, table.flows(), table.coflows(), runs)?;
    let steps = curve_of(alloc, &ends)?;
    let ids = ids_of(alloc, table)?;
    let weights = copy_of(alloc, input.weights.as_slice())?;
    let places = places_in(alloc, table, report.places.as_slice())?;
    Ok(Picture {
        window,
        rows: Items::from_vec(rows),
        ends: Items::from_vec(ends),
        steps: Items::from_vec(steps),
        ids,
        weights,
        places,
        cost: report.cost,
        bound: report.bound,
    })
}

/// The window that is drawn of a schedule.
fn window_in<'a>(words: ReportWords<'a>, runs: &Runs) -> Window
    requires { length (slots_in runs.now) ≤ MAX_SLOT }
    ensures side { result.side ≡ (report_by words.entry).side }
    ensures first { result.first ≡ (report_by words.entry).from }
    ensures last { result.last ≡ min (report_by words.entry).to (length (slots_in runs.now)) }
{
    Window {
        side: words.side,
        first: words.from,
        last: words.to.min(slots_of(runs)),
    }
}

/// How many slots the runs have.
pub(crate) fn slots_of(runs: &Runs) -> u64
    requires { length (slots_in runs.now) ≤ MAX_SLOT }
    ensures { result ≡ length (slots_in runs.now) }
{
    let mut slots = 0;
    for place in 0..runs.count() {
        slots += runs.slots(place);
    }
    slots
}

/// The ids of the coflows, by number.
fn ids_of(alloc: Global, table: &Table) -> Result<Items<u32>, NoMemory>
    ensures { IfOk result (λ ids. ids ≡ table.now.ids) }
{
    let mut ids = Vec::new(alloc);
    for coflow in 0..table.coflows() {
        ids.push(table.id(coflow))?;
    }
    Ok(Items::from_vec(ids))
}

/// The places of the coflows in the order of a report, by number.
fn places_in(alloc: Global, table: &Table, lines: &[PlaceLine]) -> Result<Items<u32>, NoMemory>
    requires { NamesEach (length table.now.ids) (coflows_in table.now.ids lines.now) }
    ensures { IfOk result (IsPlaces (coflows_in table.now.ids lines.now)) }
{
    let order = match coflows_of(alloc, table, lines)? {
        Named::Coflows(order) => order,
        Named::Wrong(_) => unreachable!(),
    };
    let places = places_of(alloc, table.coflows(), &order)?;
    Ok(Items::from_vec(places))
}

/// The same weights.
fn copy_of(alloc: Global, weights: &[u64]) -> Result<Items<u64>, NoMemory>
    ensures { IfOk result (λ copy. copy ≡ weights.now) }
{
    let copy = Vec::from_slice(alloc, weights)?;
    Ok(Items::from_vec(copy))
}

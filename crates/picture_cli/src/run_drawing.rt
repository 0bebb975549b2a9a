//! The picture of an online run.
ghost use Rattle.std.specs.Prelude.{◌≡◌, ℕ, ◌≤◌, ◌*◌, ◌==◌, ◌^◌, All, IfErr, IfOk, OnOk, filter, length, map, min, not, slice_index};
ghost use Rattle.std.specs.List.{range_with_len};
ghost use Rattle.coflow_units.specs.declared.limits.TheConstants.{MAX_ARRIVAL, MAX_COFLOWS, MAX_SLOT, MAX_WEIGHT};
ghost use Rattle.flow_table.specs.Table.{IsTable, instance_of};
ghost use Rattle.online_check.specs.AnyReport.{IsAnyReport};
ghost use Rattle.online_check.specs.Done.{slots_done};
ghost use Rattle.online_check.specs.Sound.{IsSoundOnline};
ghost use Rattle.online_check.specs.declared.any_report.AnyReport.TheVariants as any;
ghost use Rattle.online_text.specs.Online.{IsOnline};
ghost use Rattle.online_text.specs.declared.value.Epoch.{Epoch};
ghost use Rattle.picture.specs.Run.{IsRunDrawable};
ghost use Rattle.schedule_model.specs.RunList.{slots_in};
ghost use Rattle.picture_cli.specs.Picture.{DrawsRun, HasNoPicture, HasVerdictCause, IsRight, IsRun, IsRunPictureOf, arrival_in};
ghost use Rattle.picture_cli.specs.Words.{report_by};

use crate::drawing::slots_of;
use crate::status::PictureStatus;
use crate::value::ReportWords;
use coflow_units::NoMemory;
use command_files::Input;
use online_check::laws::yes_bounds_released_schedules;
use online_check::{AnyReport, arrivals_of, judge};
use online_text::{DoneLine, Epoch, Online};
use picture::{RunCosts, RunPicture, Span, run_picture_of, write_run_picture};
use release_bound::arrivals_cost;
use run_list::Runs;
use std::alloc::Global;

/// Checks an online run. The error is `No` where it is not right.
pub(crate) fn check_run<'a>(
    alloc: Global,
    words: ReportWords<'a>,
    input: &Input,
    report: &AnyReport,
) -> Result<(), PictureStatus>
    requires count { length input.now.weights ≡ length input.now.table.ids }
    requires weights { All (λ w. w ≤ MAX_WEIGHT) input.now.weights }
    requires report { IsAnyReport report.now }
    requires run { IsRun report.now }
    ensures right { OnOk result
        (IsRight input.now.table input.now.weights (report_by words.entry).slot_ms report.now) }
    ensures cause { IfErr result
        (HasVerdictCause input.now.table input.now.weights report.now (report_by words.entry)) }
{
    let weights = input.weights.as_slice();
    let judged = judge(alloc, &input.table, weights, words.slot_ms, report)?;
    let is_right = judged.yes;
    drop(judged);
    if is_right {
        return Ok(());
    }
    Err(PictureStatus::No)
}

/// The text of the picture of a right online run.
pub(crate) fn draw_run<'a>(
    alloc: Global,
    words: ReportWords<'a>,
    input: &Input,
    online: &Online,
) -> Result<Vec<u8>, PictureStatus>
    requires count { length input.now.weights ≡ length input.now.table.ids }
    requires weights { All (λ w. w ≤ MAX_WEIGHT) input.now.weights }
    requires online { IsOnline online.now }
    requires right { IsSoundOnline (instance_of input.now.table input.now.weights)
        (arrival_in input.now.table (report_by words).slot_ms) input.now.table.ids online.now }
    ensures drawn { IfOk result (λ text.
        DrawsRun input.now.table input.now.weights online.now (report_by words.entry) text.items) }
    ensures cause { IfErr result (HasNoPicture input.now.table (any.Online online.now) (report_by words.entry)) }
{
    yes_bounds_released_schedules();
    let picture = run_in(alloc, words, input, online)?;
    let text = write_run_picture(alloc, &picture)?;
    Ok(text)
}

/// The picture of a right online run.
fn run_in<'a>(
    alloc: Global,
    words: ReportWords<'a>,
    input: &Input,
    online: &Online,
) -> Result<RunPicture, PictureStatus>
    requires count { length input.now.weights ≡ length input.now.table.ids }
    requires weights { All (λ w. w ≤ MAX_WEIGHT) input.now.weights }
    requires online { IsOnline online.now }
    requires right { IsSoundOnline (instance_of input.now.table input.now.weights)
        (arrival_in input.now.table (report_by words).slot_ms) input.now.table.ids online.now }
    ensures shows { IfOk result
        (IsRunPictureOf input.now.table input.now.weights online.now (report_by words.entry)) }
    ensures drawable { IfOk result IsRunDrawable }
    ensures cause { IfErr result (HasNoPicture input.now.table (any.Online online.now) (report_by words.entry)) }
{
    let span = span_in(words, &online.runs);
    if span.last < span.first {
        return Err(PictureStatus::NoSlots {
            first: span.first,
            last: span.last,
        });
    }
    let times = arrivals_of(alloc, &input.table, words.slot_ms)?;
    let slots = stated_slots(alloc, online.done.as_slice())?;
    let coflows = input.table.coflows();
    let completed = nonzero_in(alloc, &slots, coflows as usize)?;
    let arrivals = numbers_at(alloc, &times, &completed)?;
    let ends = numbers_at(alloc, &slots, &completed)?;
    let published = times_in(alloc, online.epochs.as_slice())?;
    let costs = RunCosts {
        cost: online.cost,
        total: online.total,
        arrivals: arrivals_cost(&input.table, input.weights.as_slice(), &times),
    };
    let picture = run_picture_of(alloc, span, &arrivals, &ends, &published, costs)?;
    Ok(picture)
}

/// The slots that are drawn of a schedule.
fn span_in<'a>(words: ReportWords<'a>, runs: &Runs) -> Span
    requires { length (slots_in runs.now) ≤ MAX_SLOT }
    ensures first { result.first ≡ (report_by words.entry).from }
    ensures last { result.last ≡ min (report_by words.entry).to (length (slots_in runs.now)) }
{
    Span {
        first: words.from,
        last: words.to.min(slots_of(runs)),
    }
}

/// The slots of lines of completions.
fn stated_slots(alloc: Global, lines: &[DoneLine]) -> Result<Vec<u64>, NoMemory>
    ensures { IfOk result (λ slots. slots.items ≡ slots_done lines.now) }
{
    let mut slots = Vec::new(alloc);
    for line in lines {
        slots.push(line.slot)?;
    }
    Ok(slots)
}

/// Of the first places, as many as `count`, those whose slots are not 0.
fn nonzero_in(alloc: Global, slots: &[u64], count: usize) -> Result<Vec<usize>, NoMemory>
    ensures { IfOk result (λ places. places.items ≡
        filter (λ c. not (slice_index slots.now c == 0)) (range_with_len 0 count)) }
{
    let mut places = Vec::new(alloc);
    for place in 0..count {
        let slot = number_at(slots, place);
        if slot != 0 {
            places.push(place)?;
        }
    }
    Ok(places)
}

/// The numbers at the places.
fn numbers_at(alloc: Global, numbers: &[u64], places: &[usize]) -> Result<Vec<u64>, NoMemory>
    ensures { IfOk result (λ picked. picked.items ≡ map (slice_index numbers.now) places.now) }
{
    let mut picked = Vec::new(alloc);
    for place in places {
        picked.push(number_at(numbers, *place))?;
    }
    Ok(picked)
}

/// The number at a place, or 0 behind the last place.
fn number_at(numbers: &[u64], place: usize) -> u64
    ensures number { result ≡ slice_index numbers.now place }
    ensures most { (most : ℕ) → All (λ n. n ≤ most) numbers.now → result ≤ most }
{
    match numbers.get(place) {
        Some(number) => *number,
        None => 0,
    }
}

/// The times of publishings.
fn times_in(alloc: Global, epochs: &[Epoch]) -> Result<Vec<u64>, NoMemory>
    ensures { IfOk result (λ times. times.items ≡ map (λ (e : Epoch). e.time) epochs.now) }
{
    let mut times = Vec::new(alloc);
    for epoch in epochs {
        times.push(epoch.time)?;
    }
    Ok(times)
}

//! The text of a report.
ghost use Rattle.std.specs.Prelude.{◌≡◌, ◌<◌, ◌+◌, ◌++◌, IfOk, OnOk, length};
ghost use Rattle.report_text.specs.Text.{charge_words, place_line_at, place_lines, report_text, side_word, total_lines, version_line, weight_at, weight_word};
ghost use Rattle.coflow_units.specs.Text.{ended, text_of};
ghost use Rattle.report_text.specs.Report.{HasWeights};

use crate::numbers::{push_named, push_number};
use crate::text::Text;
use crate::value::{PlaceLine, Report};
use coflow_units::{NoMemory, Side};
use std::alloc::Global;

/// The text of a report, of version 2 where it has weights, and of version 1 where it has none.
///
/// Words are separated by one space, each line ends with one line feed, and numbers are decimal without leading zeros.
/// The lines are `sincronia 2`, for each place `place K ID SIDE PORT Y DONE WEIGHT` with K counting from 1, `bound B`,
/// `slack X`, `cost C`, for each run `run LENGTH FLOW FLOW ...`, and `end`. Version 1 has the first line `sincronia 1`
/// and place lines without their last number. The lines of the runs and the last one are made when the text is written.
///
/// The report has a weight for each place, or no weights at all. The error is want of memory.
pub fn write_report(alloc: Global, report: Report) -> Result<Text, NoMemory>
    requires weight_each { HasWeights report }
    ensures text { IfOk result (λ text. text ≡ report_text report) }
{
    let mut head = Vec::with_capacity(alloc, room_for(&report))?;
    push_version(&mut head, &report)?;
    push_places(&mut head, &report)?;
    push_totals(&mut head, &report)?;
    Ok(Text::with_runs(head, report.runs))
}

/// Room for the lines before those of the runs, so that they are not moved while the text grows. No clause needs it.
fn room_for(report: &Report) -> usize {
    report
        .places
        .as_slice()
        .len()
        .saturating_mul(200)
        .saturating_add(200)
}

/// The first line.
fn push_version(text: &mut Vec<u8>, report: &Report) -> Result<(), NoMemory>
    ensures { OnOk result (text.new.items ≡ text.old.items ++ ended (version_line report.now.weights)) }
{
    match report.weights {
        Some(_) => text.extend_from_slice(b"sincronia 2\n")?,
        None => text.extend_from_slice(b"sincronia 1\n")?,
    }
    Ok(())
}

/// The lines of the places.
fn push_places(text: &mut Vec<u8>, report: &Report) -> Result<(), NoMemory>
    requires weight_each { HasWeights report.now }
    ensures { OnOk result (text.new.items ≡ text.old.items ++ text_of (place_lines report.now)) }
{
    for place in 0..report.places.as_slice().len() {
        push_place(text, report, place)?;
    }
    Ok(())
}

/// The line of a place, which is counted from 0 here and from 1 in the text.
fn push_place(text: &mut Vec<u8>, report: &Report, place: usize) -> Result<(), NoMemory>
    requires place { place < length report.now.places }
    requires weight_each { HasWeights report.now }
    ensures { OnOk result (text.new.items ≡ text.old.items ++ ended (place_line_at report.now place)) }
{
    let line = report.places.as_slice()[place];
    text.extend_from_slice(b"place")?;
    push_number(text, place as u128 + 1)?;
    push_charge(text, line)?;
    push_weight(text, report, place)?;
    text.extend_from_slice(b"\n")?;
    Ok(())
}

/// The weight of a place, in version 2.
fn push_weight(text: &mut Vec<u8>, report: &Report, place: usize) -> Result<(), NoMemory>
    requires place { place < length report.now.places }
    requires weight_each { HasWeights report.now }
    ensures { OnOk result (text.new.items ≡ text.old.items ++ weight_word (weight_at report.now.weights place)) }
{
    match &report.weights {
        Some(weights) => push_number(text, u128::from(weights.as_slice()[place])),
        None => Ok(()),
    }
}

/// What a place line says of the place, behind its number.
fn push_charge(text: &mut Vec<u8>, line: PlaceLine) -> Result<(), NoMemory>
    ensures { OnOk result (text.new.items ≡ text.old.items ++ charge_words line) }
{
    push_number(text, u128::from(line.id))?;
    text.extend_from_slice(b" ")?;
    text.extend_from_slice(word_of(line.port.side))?;
    push_number(text, u128::from(line.port.number))?;
    push_number(text, line.y)?;
    push_number(text, u128::from(line.done))
}

/// The word of a side: `in` or `out`.
pub fn word_of(side: Side) -> &'static [u8]
    ensures { result.now ≡ side_word side }
{
    match side {
        Side::Ingress => b"in",
        Side::Egress => b"out",
    }
}

/// The lines of the bound, the slack and the cost.
fn push_totals(text: &mut Vec<u8>, report: &Report) -> Result<(), NoMemory>
    ensures { OnOk result (text.new.items ≡ text.old.items ++ text_of (total_lines report.now)) }
{
    push_named(text, b"bound", report.bound)?;
    push_named(text, b"slack", report.slack)?;
    push_named(text, b"cost", report.cost)
}

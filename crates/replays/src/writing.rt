//! The text of a replay.
ghost use Rattle.std.specs.Prelude.{◌≡◌, ◌++◌, All, IfOk, OnOk, map};
ghost use Rattle.coflow_units.specs.Text.{ended, text_of};
ghost use Rattle.replays.specs.Text.{replay_text, replayed_words, row_line};

use crate::rows::{ReplayRow, Replayed};
use coflow_units::{Items, NoMemory};
use report_text::{push_named, push_number};
use std::alloc::Global;

/// What is said of the replays of a bench: the greatest total of the released certificates, the sum of weight times
/// arrival of the coflows that have units, and a row for each ranker.
#[derive(Drop)]
pub struct ReplayReport {
    pub total: u128,
    pub arrivals: u128,
    pub rows: Items<ReplayRow>,
}

/// The text of a replay.
///
/// Words are separated by one space, each line ends with one line feed, and numbers are decimal without leading zeros.
/// The lines are `sincronia replay 1`, `total T`, `arrivals A`, for each row `row INDEX NAME cost C` or `row INDEX NAME
/// unfit EPOCH PLACE`, and `end`. The error is want of memory.
pub fn write_replay(alloc: Global, report: &ReplayReport) -> Result<Vec<u8>, NoMemory>
    ensures { IfOk result (λ bytes. bytes.items ≡ replay_text report.now) }
{
    let mut text = Vec::new(alloc);
    text.extend_from_slice(b"sincronia replay 1\n")?;
    push_named(&mut text, b"total", report.total)?;
    push_named(&mut text, b"arrivals", report.arrivals)?;
    push_rows(&mut text, report.rows.as_slice())?;
    text.extend_from_slice(b"end\n")?;
    Ok(text)
}

/// The lines of the rows.
fn push_rows(text: &mut Vec<u8>, rows: &[ReplayRow]) -> Result<(), NoMemory>
    ensures { OnOk result (text.new.items ≡ text.old.items ++ text_of (map row_line rows.now)) }
{
    for row in rows {
        push_row(text, row)?;
    }
    Ok(())
}

/// The line of a row.
fn push_row(text: &mut Vec<u8>, row: &ReplayRow) -> Result<(), NoMemory>
    ensures { OnOk result (text.new.items ≡ text.old.items ++ ended (row_line row.now)) }
{
    text.extend_from_slice(b"row")?;
    push_number(text, u128::from(row.index))?;
    text.extend_from_slice(b" ")?;
    text.extend_from_slice(row.name.as_slice())?;
    push_replayed(text, row.result)?;
    text.extend_from_slice(b"\n")?;
    Ok(())
}

/// What a replay comes to.
fn push_replayed(text: &mut Vec<u8>, replayed: Replayed) -> Result<(), NoMemory>
    ensures { OnOk result (text.new.items ≡ text.old.items ++ replayed_words replayed) }
{
    match replayed {
        Replayed::Cost(total) => {
            text.extend_from_slice(b" cost")?;
            push_number(text, total)
        }
        Replayed::Unfit { epoch, place } => {
            text.extend_from_slice(b" unfit")?;
            push_number(text, u128::from(epoch))?;
            push_number(text, u128::from(place))
        }
    }
}

//! The text of a comparison of rankers.
ghost use Rattle.std.specs.Prelude.{◌≡◌, ◌++◌, All, IfOk, OnOk, map};
ghost use Rattle.coflow_units.specs.Text.{ended, text_of};
ghost use Rattle.report_text.specs.Compared.{IsName, compare_text, row_line, worth_words};
ghost use Rattle.report_text.specs.declared.compared.RowLine.{RowLine};

use crate::numbers::{push_named, push_number};
use coflow_units::{Items, NoMemory};
use std::alloc::Global;

/// What the answer of a ranker is worth: what the schedule that serves it costs, or the first place, counted from 1, at
/// which it is no order.
#[derive(Clone, Copy, Debug, PartialEq, Eq)]
pub enum RowText {
    Cost(u128),
    Unfit(u32),
}

/// One row: the ranker's place on the bench, from 1, the round, 1 or 2, the ranker's name, and what its answer is
/// worth.
#[derive(Drop)]
pub struct RowLine {
    pub index: u32,
    pub round: u32,
    pub name: Items<u8>,
    pub scored: RowText,
}

/// A comparison: the lower bound on the cost of any schedule, and the rows.
#[derive(Drop)]
pub struct Compare {
    pub bound: u128,
    pub rows: Items<RowLine>,
}

/// The text of a comparison.
///
/// Words are separated by one space, each line ends with one line feed, and numbers are decimal without leading zeros.
/// The lines are `sincronia compare 1`, `bound B`, for each row `row INDEX ROUND NAME cost C` or `row INDEX ROUND NAME
/// unfit PLACE`, and `end`. A name has from 1 to 16 letters of a to z.
///
/// The error is want of memory.
pub fn write_compare(alloc: Global, compare: &Compare) -> Result<Vec<u8>, NoMemory>
    requires names { All (λ (row : RowLine). IsName row.name) compare.now.rows }
    ensures text { IfOk result (λ bytes. bytes.items ≡ compare_text compare.now) }
{
    let mut text = Vec::new(alloc);
    text.extend_from_slice(b"sincronia compare 1\n")?;
    push_named(&mut text, b"bound", compare.bound)?;
    push_rows(&mut text, compare.rows.as_slice())?;
    text.extend_from_slice(b"end\n")?;
    Ok(text)
}

/// The lines of the rows.
fn push_rows(text: &mut Vec<u8>, rows: &[RowLine]) -> Result<(), NoMemory>
    ensures { OnOk result (text.new.items ≡ text.old.items ++ text_of (map row_line rows.now)) }
{
    for row in rows {
        push_row(text, row)?;
    }
    Ok(())
}

/// The line of a row.
fn push_row(text: &mut Vec<u8>, row: &RowLine) -> Result<(), NoMemory>
    ensures { OnOk result (text.new.items ≡ text.old.items ++ ended (row_line row.now)) }
{
    text.extend_from_slice(b"row")?;
    push_number(text, u128::from(row.index))?;
    push_number(text, u128::from(row.round))?;
    text.extend_from_slice(b" ")?;
    text.extend_from_slice(row.name.as_slice())?;
    push_worth(text, row.scored)?;
    text.extend_from_slice(b"\n")?;
    Ok(())
}

/// What an answer is worth.
fn push_worth(text: &mut Vec<u8>, scored: RowText) -> Result<(), NoMemory>
    ensures { OnOk result (text.new.items ≡ text.old.items ++ worth_words scored) }
{
    match scored {
        RowText::Cost(total) => {
            text.extend_from_slice(b" cost")?;
            push_number(text, total)
        }
        RowText::Unfit(place) => {
            text.extend_from_slice(b" unfit")?;
            push_number(text, u128::from(place))
        }
    }
}

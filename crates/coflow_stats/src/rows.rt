//! The text of the coflows of a schedule.
ghost use Rattle.std.specs.Prelude.{◌≡◌, ◌++◌, IfOk, OnOk};
ghost use Rattle.coflow_units.specs.Text.{ended};
ghost use Rattle.coflow_stats.specs.Rows.{comma_then, row_line, rows_text};

use crate::digits::push_decimal;
use crate::groups::{duration, group_of, word_of};
use crate::value::Finished;
use coflow_units::NoMemory;
use std::alloc::Global;

/// The text of the coflows of a schedule, where a unit has so many megabytes: the line
/// `id,arrival,flows,units,bottleneck,weight,completion,duration,group`, and a line for each coflow. A group is spelled
/// `short-narrow`, `long-narrow`, `short-wide` or `long-wide`, and each line ends with one line feed.
///
/// The error is want of memory.
pub fn write_rows(alloc: Global, unit: u64, coflows: &[Finished]) -> Result<Vec<u8>, NoMemory>
    ensures text { IfOk result (λ bytes. bytes.items ≡ rows_text unit coflows.now) }
{
    let mut text = Vec::new(alloc);
    text.extend_from_slice(
        b"id,arrival,flows,units,bottleneck,weight,completion,duration,group\n",
    )?;
    for coflow in coflows {
        push_row(&mut text, unit, coflow)?;
    }
    Ok(text)
}

/// The line of a coflow.
fn push_row(text: &mut Vec<u8>, unit: u64, coflow: &Finished) -> Result<(), NoMemory>
    ensures { OnOk result (text.new.items ≡ text.old.items ++ ended (row_line unit coflow.now)) }
{
    push_decimal(text, u128::from(coflow.id))?;
    push_after_comma(text, coflow.arrival)?;
    push_after_comma(text, u64::from(coflow.flows))?;
    push_after_comma(text, coflow.units)?;
    push_after_comma(text, coflow.bottleneck)?;
    push_after_comma(text, coflow.weight)?;
    push_after_comma(text, coflow.completion)?;
    push_after_comma(text, duration(coflow))?;
    text.extend_from_slice(b",")?;
    text.extend_from_slice(word_of(group_of(unit, coflow)))?;
    text.extend_from_slice(b"\n")?;
    Ok(())
}

/// A number behind a comma.
fn push_after_comma(text: &mut Vec<u8>, number: u64) -> Result<(), NoMemory>
    ensures { OnOk result (text.new.items ≡ text.old.items ++ comma_then number) }
{
    text.extend_from_slice(b",")?;
    push_decimal(text, u128::from(number))
}

//! The printed journal whose text the bytes are.
ghost use Rattle.std.specs.Prelude.{◌≤◌, ◌^◌, length};
ghost use Rattle.coflow_units.specs.declared.limits.TheConstants.{MAX_REPORT};
ghost use Rattle.live_text.specs.Reading.{GivesLive};

use crate::draft::Draft;
use crate::value::Live;
use report_text::{ReportFault, line_then};
use std::alloc::Global;

/// The printed journal whose text the bytes are. There are at most 2^30 bytes.
///
/// Each printed journal has one text, which `write_live` gives, and no other spelling is read: words are separated by
/// one space, each line ends with one line feed, numbers are decimal without leading zeros, and nothing follows the
/// last line. Each command has a reply of its own, positions and versions count from 1, pulls rise by client and then
/// by line, and neighbouring runs differ. There are at most 2^23 entries. A client's number is at most 64, and 0 stands
/// for the driver in entries alone; a run may have 1 slot at least, and weights are from 1 to 2^32; slots and their
/// numbers are below 2^64, and all other numbers below 2^32.
///
/// `BadText` comes exactly where the bytes are the text of no printed journal. Its line is the first one that no such
/// text has after the lines before it. A text that is cut short is refused at the first line that it does not have
/// whole. `NoMemory`, want of memory, may come in place of any answer.
pub fn read_live(alloc: Global, bytes: &[u8]) -> Result<Live, ReportFault>
    requires few { length bytes.now ≤ MAX_REPORT }
    ensures live { GivesLive bytes.now result }
{
    let mut draft = Draft::new(alloc);
    let mut rest = bytes;
    let mut line_number: u32 = 1;
    while !rest.is_empty() {
        let Some((line, behind)) = line_then(rest) else {
            drop(draft);
            return Err(ReportFault::BadText { line: line_number });
        };
        let Ok(taken) = draft.accept(alloc, line) else {
            drop(draft);
            return Err(ReportFault::NoMemory);
        };
        if !taken {
            drop(draft);
            return Err(ReportFault::BadText { line: line_number });
        }
        rest = behind;
        line_number += 1;
    }
    match draft.into_live() {
        Some(live) => Ok(live),
        None => Err(ReportFault::BadText { line: line_number }),
    }
}

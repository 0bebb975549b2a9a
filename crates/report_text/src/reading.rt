//! The report whose text the bytes are.
ghost use Rattle.std.specs.Prelude.{◌≤◌, ◌^◌, length};
ghost use Rattle.coflow_units.specs.declared.limits.TheConstants.{MAX_REPORT};
ghost use Rattle.report_text.specs.Reading.{GivesReport};

use crate::draft::Draft;
use crate::fault::ReportFault;
use crate::lines::line_then;
use crate::value::Report;
use std::alloc::Global;

/// The report whose text the bytes are, of version 1 or 2. There are at most 2^30 bytes.
///
/// Each report has one text, which `write_report` gives, and no other spelling is read: words are separated by one
/// space, each line ends with one line feed, numbers are decimal without leading zeros, and nothing follows the last
/// line. `BadText` comes exactly where the bytes are the text of no report. Its line is the first one that no text of a
/// report has after the lines before it. A text that is cut short is refused at the first line that it does not have
/// whole. `NoMemory`, want of memory, may come in place of any answer.
pub fn read_report(alloc: Global, bytes: &[u8]) -> Result<Report, ReportFault>
    requires few { length bytes.now ≤ MAX_REPORT }
    ensures report { GivesReport bytes.now result }
{
    let mut draft = Draft::new(alloc);
    let mut flows = Vec::new(alloc);
    let mut rest = bytes;
    let mut line_number: u32 = 1;
    while !rest.is_empty() {
        let Some((line, behind)) = line_then(rest) else {
            return Err(ReportFault::BadText { line: line_number });
        };
        if !draft.accept(line, &mut flows)? {
            return Err(ReportFault::BadText { line: line_number });
        }
        rest = behind;
        line_number += 1;
    }
    match draft.into_report() {
        Some(report) => Ok(report),
        None => Err(ReportFault::BadText { line: line_number }),
    }
}

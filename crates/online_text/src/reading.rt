//! The online run whose text the bytes are.
ghost use Rattle.std.specs.Prelude.{◌≤◌, ◌↔◌, IsTrue, length};
ghost use Rattle.coflow_units.specs.declared.limits.TheConstants.{MAX_REPORT};
ghost use Rattle.online_text.specs.Reading.{BeginsOnline, GivesOnline};

use crate::draft::Draft;
use crate::value::Online;
use report_text::{ReportFault, line_then};
use std::alloc::Global;

/// The online run whose text the bytes are. There are at most 2^30 bytes.
///
/// Each online run has one text, which `write_online` gives, and no other spelling is read: words are separated by one
/// space, each line ends with one line feed, numbers are decimal without leading zeros, places are counted from 1 in
/// each list of them, the times of the publishings rise, and nothing follows the last line. `BadText` comes exactly
/// where the bytes are the text of no online run. Its line is the first one that no such text has after the lines
/// before it. A text that is cut short is refused at the first line that it does not have whole. `NoMemory`, want of
/// memory, may come in place of any answer.
pub fn read_online(alloc: Global, bytes: &[u8]) -> Result<Online, ReportFault>
    requires few { length bytes.now ≤ MAX_REPORT }
    ensures report { GivesOnline bytes.now result }
{
    let mut draft = Draft::new(alloc);
    let mut rest = bytes;
    let mut line_number: u32 = 1;
    while !rest.is_empty() {
        let Some((line, behind)) = line_then(rest) else {
            return Err(ReportFault::BadText { line: line_number });
        };
        if !draft.accept(alloc, line)? {
            return Err(ReportFault::BadText { line: line_number });
        }
        rest = behind;
        line_number += 1;
    }
    match draft.into_online() {
        Some(online) => Ok(online),
        None => Err(ReportFault::BadText { line: line_number }),
    }
}

/// Whether the first line is that of the text of an online run, with its line feed.
pub fn is_online(bytes: &[u8]) -> bool
    ensures first { IsTrue result ↔ BeginsOnline bytes.now }
{
    bytes.starts_with(b"sincronia online 2\n")
}

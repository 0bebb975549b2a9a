//! Reports of both kinds.
ghost use Rattle.std.specs.Prelude.{◌≤◌, length};
ghost use Rattle.coflow_units.specs.declared.limits.TheConstants.{MAX_REPORT};
ghost use Rattle.online_check.specs.AnyReport.{GivesAnyReport};

use online_text::{Online, is_online, read_online};
use report_text::{Report, ReportFault, read_report};
use std::alloc::Global;

/// A report: that of a plan, or that of an online run.
#[derive(Drop)]
pub enum AnyReport {
    Plan(Report),
    Online(Online),
}

/// The report whose text the bytes are. Their first line tells its kind: where it is `sincronia online 2` the report is
/// that of an online run, and else that of a plan. There are at most 2^30 bytes.
///
/// `BadText` comes exactly where the bytes are the text of no report of that kind. Its line is the first one that no
/// such text has after the lines before it. `NoMemory`, want of memory, may come in place of any answer.
pub fn read_any_report(alloc: Global, bytes: &[u8]) -> Result<AnyReport, ReportFault>
    requires few { length bytes.now ≤ MAX_REPORT }
    ensures report { GivesAnyReport bytes.now result }
{
    if is_online(bytes) {
        let online = read_online(alloc, bytes)?;
        return Ok(AnyReport::Online(online));
    }
    let report = read_report(alloc, bytes)?;
    Ok(AnyReport::Plan(report))
}

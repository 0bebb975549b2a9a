//! The check of a report.
ghost use Rattle.std.specs.Prelude.{◌≡◌, ◌≤◌, ◌^◌, ◌↔◌, All, IfOk, length};
ghost use Rattle.coflow_units.specs.declared.limits.TheConstants.{MAX_WEIGHT};
ghost use Rattle.flow_table.specs.Table.{instance_of};
ghost use Rattle.report_text.specs.Report.{IsReport};
ghost use Rattle.cert_check.specs.Reasons.{IsVerdict, NamesCoflowIfAny};
ghost use Rattle.cert_check.specs.Sound.{AreLoadsOf, IsSound};

use crate::certificate::wrong_certificate;
use crate::places::{Named, coflows_of};
use crate::schedule::wrong_schedule;
use crate::verdict::{Reason, Verdict};
use coflow_units::NoMemory;
use flow_table::Table;
use port_load::Loads;
use report_text::Report;
use std::alloc::Global;

/// Whether a report is right for the coflows of a table, with one weight for each, by number, of at most 2^32. The
/// loads are those of the table's flows. The report is one that a text can state, as `read_report` gives it: it has at
/// most 2^41 - 1 slots, each run has one slot or more and ascending flows, neighbouring runs differ, and where weights
/// are stated, each place has one, from 1 to 2^32.
///
/// `Yes` comes exactly where all of this holds, which `IsSound` says:
///
/// - the places name each coflow once, by its id, and their ports are in range;
/// - the weights are those given, where the report states any;
/// - no coflow pays more than its budget;
/// - the stated bound is at most that of the certificate, and the slack is its slack;
/// - each flow is sent its units, no port is used twice in a slot, and no slot has a number that is no flow's;
/// - each coflow is completed in the slot that its place states;
/// - the cost is the sum over the coflows of weight times completion, and it is at most four times the stated bound and
///   the slack.
///
/// Else the first reason comes, in the order of `Reason`. The error is want of memory, which may come in place of any
/// answer.
///
/// Nothing that the report says is trusted: its ids may be anybody's, its ports out of range, and its prices any
/// numbers of 128 bits. So a yes says that no valid schedule costs less than the stated bound, whoever made the report.
pub fn check(
    alloc: Global,
    table: &Table,
    loads: &Loads,
    weights: &[u64],
    report: &Report,
) -> Result<Verdict, NoMemory>
    requires loads { AreLoadsOf table.now loads.now }
    requires weight_each { length weights.now ≡ length table.now.ids }
    requires weight_range { All (λ w. w ≤ MAX_WEIGHT) weights.now }
    requires report { IsReport report.now }
    ensures verdict { IfOk result (IsVerdict (instance_of table.now weights.now) table.now.ids report.now) }
    ensures yes { IfOk result (λ verdict. (verdict ≡ Verdict.Yes) ↔ IsSound (instance_of table.now weights.now)
        table.now.ids report.now) }
    ensures coflow { IfOk result (NamesCoflowIfAny (length table.now.ids)) }
{
    let coflows = match coflows_of(alloc, table, report.places.as_slice())? {
        Named::Coflows(coflows) => coflows,
        Named::Wrong(place) => return Ok(Verdict::No(Reason::NotPermutation { place })),
    };
    if let Some(reason) = wrong_certificate(alloc, table, loads, weights, &coflows, report)? {
        return Ok(Verdict::No(reason));
    }
    if let Some(reason) = wrong_schedule(alloc, table, weights, &coflows, report)? {
        return Ok(Verdict::No(reason));
    }
    Ok(Verdict::Yes)
}

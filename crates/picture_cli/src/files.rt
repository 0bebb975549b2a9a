//! The files of a picture.
ghost use Rattle.std.specs.Prelude.{IfErr, IfOk, IfSome, OnOk};
ghost use Rattle.online_check.specs.AnyReport.{IsAnyBadAt};
ghost use Rattle.command_files.specs.Causes.{HasCauseInFiles};
ghost use Rattle.command_files.specs.Reports.{IsAnyReportOf};
ghost use Rattle.command_files.specs.Ends.{CountsFault};
ghost use Rattle.command_files.specs.Inputs.{IsInput};
ghost use Rattle.command_files.specs.Shelves.{KeepsFiles, OfBoth, ReadsOut};
ghost use Rattle.command_files.specs.Turns.{FilesInTurn};
ghost use Rattle.picture_cli.specs.Complete.{AreGoodFiles};
ghost use Rattle.picture_cli.specs.Picture.{check_of};
ghost use Rattle.picture_cli.specs.Words.{report_by};
ghost use Rattle.picture_cli.specs.Words.PictureSaid.{of_report};

use crate::value::ReportWords;
use command_files::{Input, Status, read_any_report_file, read_input};
use online_check::AnyReport;
use outside::Shelf;
use std::alloc::Global;

/// The flows of a trace with the weights of its coflows, and a report.
#[derive(Drop)]
pub(crate) struct Files {
    pub(crate) input: Input,
    pub(crate) report: AnyReport,
}

/// Reads the files that the words name: the trace, the weights and the report, in this order. The error is the status
/// of why they were not read.
pub(crate) fn read_files<'a, H: Shelf>(
    alloc: Global,
    words: ReportWords<'a>,
    shelf: &mut H,
) -> Result<Files, Status>
    ensures input { IfOk result (λ f. IsInput (H.told shelf.old) (report_by words.entry).trace
        (report_by words.entry).weights (report_by words.entry).unit f.input.table f.input.weights) }
    ensures report { IfOk result (λ f. IsAnyReportOf (H.told shelf.old) (report_by words.entry).report f.report) }
    ensures good { OnOk result (IfSome (H.told shelf.old) (AreGoodFiles (of_report (report_by words.entry)))) }
    ensures read_out { OnOk result (OfBoth (H.told shelf.old) (H.told shelf.new)
        (ReadsOut (check_of (report_by words.entry)).job (check_of (report_by words.entry)))) }
    ensures in_turn { IfErr result (λ status. OfBoth (H.told shelf.old) (H.told shelf.new)
        (FilesInTurn (check_of (report_by words.entry)) status)) }
    ensures keeps { KeepsFiles (H.told shelf.old) (H.told shelf.new) }
    ensures counts { CountsFault (H.faults shelf.old) (H.faults shelf.new) result }
    ensures cause { IfErr result (HasCauseInFiles IsAnyBadAt (H.faults shelf.old) (H.faults shelf.new)
        (H.told shelf.old) (H.told shelf.new) (check_of (report_by words.entry))) }
{
    let input = read_input(alloc, words.trace, words.weights, words.unit, shelf)?;
    let report = read_any_report_file(alloc, words.report, shelf)?;
    Ok(Files { input, report })
}

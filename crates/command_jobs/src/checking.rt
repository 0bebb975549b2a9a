//! The command `check`: the verdict on a report.
ghost use Rattle.std.specs.Prelude.{◌≡◌, Bool, IfErr, IfOk, IfSome, OnOk};
ghost use Rattle.command_words.specs.Jobs.Job.{check_job};
ghost use Rattle.command_words.specs.Words.{said_with};
ghost use Rattle.command_files.specs.JobCauses.{HasFilesCause};
ghost use Rattle.command_jobs.specs.Check.{CheckOf, status_for};
ghost use Rattle.command_files.specs.GoodFiles.{HasGoodFiles};
ghost use Rattle.command_files.specs.Ends.{CountsFault};
ghost use Rattle.command_files.specs.Shelves.{KeepsFiles, OfBoth, ReadsOut};
ghost use Rattle.command_files.specs.Turns.{FilesInTurn};

use command_files::{Outcome, Status, read_any_report_file, read_input};
use command_words::Options;
use online_check::judge;
use outside::Shelf;
use report_text::Text;
use std::alloc::Global;

/// The line of the verdict on the report of that name, for the coflows of the trace of the other, or the status of why
/// there is none.
pub fn check_report<'a, H: Shelf>(
    alloc: Global,
    trace: &str,
    report: &str,
    options: Options<'a>,
    shelf: &mut H,
) -> Result<Outcome, Status>
    ensures outcome { IfOk result (λ o. (yes : Bool) × (o.status ≡ status_for yes) ×
        CheckOf (H.told shelf.old) (said_with (check_job trace.now report.now) options.entry) yes o.text) }
    ensures read_out { OnOk result (OfBoth (H.told shelf.old) (H.told shelf.new)
        (ReadsOut (check_job trace.now report.now)
        (said_with (check_job trace.now report.now) options.entry))) }
    ensures good { OnOk result (IfSome (H.told shelf.old) (HasGoodFiles (check_job trace.now report.now)
        (said_with (check_job trace.now report.now) options.entry))) }
    ensures in_turn { IfErr result (λ status. OfBoth (H.told shelf.old) (H.told shelf.new)
        (FilesInTurn (said_with (check_job trace.now report.now) options.entry) status)) }
    ensures keeps { KeepsFiles (H.told shelf.old) (H.told shelf.new) }
    ensures counts { CountsFault (H.faults shelf.old) (H.faults shelf.new) result }
    ensures cause { IfErr result (λ status. HasFilesCause (H.faults shelf.old) (H.faults shelf.new) (H.told shelf.old)
        (H.told shelf.new) (said_with (check_job trace.now report.now) options.entry) status) }
{
    let input = read_input(alloc, trace, options.weights, options.unit, shelf)?;
    let report = match read_any_report_file(alloc, report, shelf) {
        Ok(report) => report,
        Err(status) => {
            drop(input);
            return Err(status);
        }
    };
    let weights = input.weights.as_slice();
    let verdict = judge(alloc, &input.table, weights, options.slot_ms, &report);
    drop(input);
    drop(report);
    let judged = verdict?;
    Ok(Outcome {
        text: Text::of_bytes(judged.line),
        status: status_of(judged.yes),
    })
}

/// The status of an answer whose line was written.
fn status_of(yes: bool) -> Status
    ensures { result ≡ status_for yes }
{
    if yes { Status::Ok } else { Status::No }
}

//! The command `audit`: the verdict on a printed journal.
ghost use Rattle.std.specs.Prelude.{◌≡◌, Bool, IfErr, IfOk, IfSome, OnOk};
ghost use Rattle.command_words.specs.Jobs.Job.{audit_job};
ghost use Rattle.command_words.specs.Words.{said_with};
ghost use Rattle.command_jobs.specs.Audit.{AuditOf, is_yes};
ghost use Rattle.command_files.specs.JobCauses.{HasFilesCause};
ghost use Rattle.command_jobs.specs.Check.{status_for};
ghost use Rattle.command_files.specs.GoodFiles.{HasGoodFiles};
ghost use Rattle.command_files.specs.Ends.{CountsFault};
ghost use Rattle.command_files.specs.Shelves.{KeepsFiles, OfBoth, ReadsOut};
ghost use Rattle.command_files.specs.Turns.{FilesInTurn};

use command_files::{Outcome, Status, read_input, read_journal_file};
use command_words::Options;
use journal_audit::{Audit, audit, audit_text};
use outside::Shelf;
use report_text::Text;
use std::alloc::Global;

/// The line of the verdict on the printed journal of that name, for the coflows of the trace of the other, or the
/// status of why there is none.
pub fn audit_journal<'a, H: Shelf>(
    alloc: Global,
    trace: &str,
    journal: &str,
    options: Options<'a>,
    shelf: &mut H,
) -> Result<Outcome, Status>
    ensures outcome { IfOk result (λ o. (yes : Bool) × (o.status ≡ status_for yes) ×
        AuditOf (H.told shelf.old) (said_with (audit_job trace.now journal.now) options.entry) yes o.text) }
    ensures read_out { OnOk result (OfBoth (H.told shelf.old) (H.told shelf.new)
        (ReadsOut (audit_job trace.now journal.now)
        (said_with (audit_job trace.now journal.now) options.entry))) }
    ensures good { OnOk result (IfSome (H.told shelf.old) (HasGoodFiles (audit_job trace.now journal.now)
        (said_with (audit_job trace.now journal.now) options.entry))) }
    ensures in_turn { IfErr result (λ status. OfBoth (H.told shelf.old) (H.told shelf.new)
        (FilesInTurn (said_with (audit_job trace.now journal.now) options.entry) status)) }
    ensures keeps { KeepsFiles (H.told shelf.old) (H.told shelf.new) }
    ensures counts { CountsFault (H.faults shelf.old) (H.faults shelf.new) result }
    ensures cause { IfErr result (λ status. HasFilesCause (H.faults shelf.old) (H.faults shelf.new) (H.told shelf.old)
        (H.told shelf.new) (said_with (audit_job trace.now journal.now) options.entry) status) }
{
    let input = read_input(alloc, trace, options.weights, options.unit, shelf)?;
    let live = match read_journal_file(alloc, journal, shelf) {
        Ok(live) => live,
        Err(status) => {
            drop(input);
            return Err(status);
        }
    };
    let audited = audit(alloc, input.table, input.weights, &live);
    drop(live);
    let verdict = audited?;
    let text = audit_text(alloc, verdict)?;
    Ok(Outcome {
        text: Text::of_bytes(text),
        status: status_of(verdict),
    })
}

/// The status of a verdict whose line was written.
fn status_of(verdict: Audit) -> Status
    ensures { result ≡ status_for (is_yes verdict) }
{
    match verdict {
        Audit::Yes { .. } => Status::Ok,
        Audit::No(_) => Status::No,
    }
}

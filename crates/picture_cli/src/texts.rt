//! The text of the picture that the words ask for.
ghost use Rattle.std.specs.Prelude.{◌≡◌, ◌⊎◌, IfErr, IfOk, IfSome, IsSomeAnd};
ghost use Rattle.outside.specs.Rose.{RoseOnce};
ghost use Rattle.command_files.specs.Ends.{IsReadFault, IsStill};
ghost use Rattle.command_files.specs.Shelves.{KeepsFiles, OfBoth, ReadsOut};
ghost use Rattle.command_files.specs.Turns.{FilesInTurn};
ghost use Rattle.command_files.specs.declared.status.Status.{Status};
ghost use Rattle.picture_cli.specs.Complete.{AreGoodFiles, CallFor, IsPastFiles};
ghost use Rattle.picture_cli.specs.Drawn.{Draws, HasPictureCause, ended, job_for};
ghost use Rattle.picture_cli.specs.Status.{as_check};
ghost use Rattle.picture_cli.specs.Words.{policies_by, report_by, said_by};
ghost use Rattle.picture_cli.specs.Words.PictureSaid.{of_policies, of_report};

use crate::drawing::picture_of;
use crate::files::read_files;
use crate::policies::policies_of;
use crate::status::PictureStatus;
use crate::value::{PictureWords, PoliciesWords, ReportWords};
use command_files::read_input;
use outside::Shelf;
use std::alloc::Global;

/// The text of the picture that the words ask for. The error is the status of why there is none.
pub(crate) fn text_by<'a, H: Shelf>(
    alloc: Global,
    words: PictureWords<'a>,
    shelf: &mut H,
) -> Result<Vec<u8>, PictureStatus>
    ensures drawn { IfOk result (λ text. Draws (H.told shelf.old) (said_by words.entry) text.items) }
    ensures complete { (answer : PictureStatus) →
        IsSomeAnd (H.told shelf.old) (CallFor (said_by words.entry) answer) →
        IsStill (H.faults shelf.old) (H.faults shelf.new) →
        (ended result ≡ answer) ⊎ (ended result ≡ PictureStatus.Ended Status.NoMemory) }
    ensures good { IsPastFiles (ended result) → IfSome (H.told shelf.old) (AreGoodFiles (said_by words.entry)) }
    ensures read_out { IsPastFiles (ended result) → OfBoth (H.told shelf.old) (H.told shelf.new)
        (ReadsOut (job_for (said_by words.entry)).job (job_for (said_by words.entry))) }
    ensures in_turn { OfBoth (H.told shelf.old) (H.told shelf.new)
        (FilesInTurn (job_for (said_by words.entry)) (as_check (ended result))) }
    ensures cause { IfErr result (HasPictureCause (H.faults shelf.old) (H.faults shelf.new) (H.told shelf.old)
        (H.told shelf.new) (said_by words.entry)) }
    ensures still { (IsReadFault (as_check (ended result)) → ⊥) → H.faults shelf.new ≡ H.faults shelf.old }
    ensures once { IsReadFault (as_check (ended result)) → RoseOnce (H.faults shelf.old) (H.faults shelf.new) }
    ensures keeps { KeepsFiles (H.told shelf.old) (H.told shelf.new) }
{
    match words {
        PictureWords::Report(words) => report_text(alloc, words, shelf),
        PictureWords::Policies(words) => policies_text(alloc, words, shelf),
    }
}

/// The text of the picture of a report.
fn report_text<'a, H: Shelf>(
    alloc: Global,
    words: ReportWords<'a>,
    shelf: &mut H,
) -> Result<Vec<u8>, PictureStatus>
    ensures drawn { IfOk result (λ text. Draws (H.told shelf.old) (of_report (report_by words.entry)) text.items) }
    ensures complete { (answer : PictureStatus) →
        IsSomeAnd (H.told shelf.old) (CallFor (of_report (report_by words.entry)) answer) →
        IsStill (H.faults shelf.old) (H.faults shelf.new) →
        (ended result ≡ answer) ⊎ (ended result ≡ PictureStatus.Ended Status.NoMemory) }
    ensures good { IsPastFiles (ended result) →
        IfSome (H.told shelf.old) (AreGoodFiles (of_report (report_by words.entry))) }
    ensures read_out { IsPastFiles (ended result) → OfBoth (H.told shelf.old) (H.told shelf.new)
        (ReadsOut (job_for (of_report (report_by words.entry))).job (job_for (of_report (report_by words.entry)))) }
    ensures in_turn { OfBoth (H.told shelf.old) (H.told shelf.new)
        (FilesInTurn (job_for (of_report (report_by words.entry))) (as_check (ended result))) }
    ensures cause { IfErr result (HasPictureCause (H.faults shelf.old) (H.faults shelf.new) (H.told shelf.old)
        (H.told shelf.new) (of_report (report_by words.entry))) }
    ensures still { (IsReadFault (as_check (ended result)) → ⊥) → H.faults shelf.new ≡ H.faults shelf.old }
    ensures once { IsReadFault (as_check (ended result)) → RoseOnce (H.faults shelf.old) (H.faults shelf.new) }
    ensures keeps { KeepsFiles (H.told shelf.old) (H.told shelf.new) }
{
    let files = read_files(alloc, words, shelf)?;
    let drawn = picture_of(alloc, words, &files.input, &files.report);
    drop(files);
    drawn
}

/// The text of the picture of policies.
fn policies_text<'a, H: Shelf>(
    alloc: Global,
    words: PoliciesWords<'a>,
    shelf: &mut H,
) -> Result<Vec<u8>, PictureStatus>
    ensures drawn { IfOk result (λ text. Draws (H.told shelf.old) (of_policies (policies_by words.entry)) text.items) }
    ensures complete { (answer : PictureStatus) →
        IsSomeAnd (H.told shelf.old) (CallFor (of_policies (policies_by words.entry)) answer) →
        IsStill (H.faults shelf.old) (H.faults shelf.new) →
        (ended result ≡ answer) ⊎ (ended result ≡ PictureStatus.Ended Status.NoMemory) }
    ensures good { IsPastFiles (ended result) →
        IfSome (H.told shelf.old) (AreGoodFiles (of_policies (policies_by words.entry))) }
    ensures read_out { IsPastFiles (ended result) → OfBoth (H.told shelf.old) (H.told shelf.new)
        (ReadsOut (job_for (of_policies (policies_by words.entry))).job
        (job_for (of_policies (policies_by words.entry)))) }
    ensures in_turn { OfBoth (H.told shelf.old) (H.told shelf.new)
        (FilesInTurn (job_for (of_policies (policies_by words.entry))) (as_check (ended result))) }
    ensures cause { IfErr result (HasPictureCause (H.faults shelf.old) (H.faults shelf.new) (H.told shelf.old)
        (H.told shelf.new) (of_policies (policies_by words.entry))) }
    ensures still { (IsReadFault (as_check (ended result)) → ⊥) → H.faults shelf.new ≡ H.faults shelf.old }
    ensures once { IsReadFault (as_check (ended result)) → RoseOnce (H.faults shelf.old) (H.faults shelf.new) }
    ensures keeps { KeepsFiles (H.told shelf.old) (H.told shelf.new) }
{
    let input = read_input(alloc, words.trace, words.weights, words.unit, shelf)?;
    let drawn = policies_of(alloc, &input);
    drop(input);
    drawn
}

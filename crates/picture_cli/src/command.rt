//! The job of drawing, from the words to the written picture.
ghost use Rattle.std.specs.Prelude.{◌≡◌, ◌≢◌, ◌⊎◌, ℕ, IfSome, IsSomeAnd};
ghost use Rattle.command_words.specs.Line.{texts};
ghost use Rattle.outside.specs.Rose.{Rose, RoseOnce};
ghost use Rattle.command_files.specs.Ends.{IsStill, IsReadFault, IsWriteFault};
ghost use Rattle.command_files.specs.Shelves.{KeepsFiles, OfBoth, ReadsOut};
ghost use Rattle.command_files.specs.Turns.{FilesInTurn};
ghost use Rattle.command_files.specs.declared.status.Status.{Status};
ghost use Rattle.picture_cli.specs.Complete.{AreGoodFiles, CallFor, IsPastFiles};
ghost use Rattle.picture_cli.specs.Drawn.{HasPicture, HasPictureCause, job_for};
ghost use Rattle.picture_cli.specs.Status.{as_check};
ghost use Rattle.picture_cli.specs.Words.{IsPictureWords, PictureSaid};
ghost use Rattle.picture_cli.specs.Written.{WritesFront, WritesPicture};

use crate::status::PictureStatus;
use crate::texts::text_by;
use crate::words::read_words;
use command_files::Status;
use command_words::WordsFault;
use outside::{Shelf, Sink, write_all};
use std::alloc::Global;

/// Draws the picture that the words ask for, and writes it to the sink.
///
/// The words are `TRACE REPORT`, or `TRACE --policies`, and options before, between or behind them, each at most once:
/// `--weights FILE` and `--unit MEGABYTES` as for `sincronia check`; `--from SLOT` and `--to SLOT`, the first and the
/// last slot that are shown, which are those of the schedule without them; `--side in` or `--side out`, whose ports are
/// shown, ingress ports without it; and `--slot-ms MILLISECONDS`, from 1 to 2^20, by which the coflows of an online run
/// arrive, 8 without it.
///
/// The trace, the weights and the report are read in this order, and the first fault ends the job. The report is that
/// of a plan or of an online run, and it is checked as `sincronia check` does it. The picture of an online run shows no
/// ports, so the side is nothing to it.
///
/// The picture of policies has no report. It shows the schedules of `bssi`, `wsebf`, `sebf`, `fifo` and `attained`, as
/// they answer once they were told how their first answer went. Window, side and time are nothing to it.
///
/// The statuses are:
/// - `Ok`: the picture was written whole.
/// - `No`: the answer of the check is no.
/// - `Usage`: the words are no command line; it has both a report and `--policies`, or neither.
/// - `NoSlots`: the report is right, and the window has none of its slots; or there is no report, and the trace has no
///   units.
/// - `TooManyBars`: the report is right, and there would be so many bars.
/// - `Ended`: as `sincronia check` ends before it writes, or at a fault of the sink, or where no memory was to be had.
///
/// Nothing was written but at `Ok`, and at a fault of the sink, where a beginning of the picture was written. The files
/// on the shelf are as before, and at every status but `Usage`, those that come before the check and want of memory
/// each of them was read to its end. Where they are told and good, the status is the one that they call for;
/// only a fault of shelf or sink and want of memory may come in its place. The shelf's count of faults rises by one at
/// a fault of the shelf, and the sink's at a fault of the sink, each up to 2^64 - 1, and neither does at any other
/// status.
pub fn sincronia_picture<H: Shelf, K: Sink>(
    alloc: Global,
    words: &[String],
    shelf: &mut H,
    out: &mut K,
) -> PictureStatus
    ensures picture { result ≡ PictureStatus.Ok → (said : PictureSaid) × IsPictureWords (texts words.now) said ×
        WritesPicture (H.told shelf.old) said (K.taken out.old) (K.taken out.new) }
    ensures complete { (said : PictureSaid) (answer : PictureStatus) → IsPictureWords (texts words.now) said →
        IsSomeAnd (H.told shelf.old) (CallFor said answer) → IsStill (H.faults shelf.old) (H.faults shelf.new) →
        IsStill (K.faults out.old) (K.faults out.new) →
        (result ≡ answer) ⊎ (result ≡ PictureStatus.Ended Status.NoMemory) }
    ensures good { IsPastFiles result → (said : PictureSaid) × IsPictureWords (texts words.now) said ×
        IfSome (H.told shelf.old) (AreGoodFiles said) }
    ensures read_out { (said : PictureSaid) → IsPictureWords (texts words.now) said → IsPastFiles result →
        OfBoth (H.told shelf.old) (H.told shelf.new) (ReadsOut (job_for said).job (job_for said)) }
    ensures in_turn { (said : PictureSaid) → IsPictureWords (texts words.now) said →
        OfBoth (H.told shelf.old) (H.told shelf.new) (FilesInTurn (job_for said) (as_check result)) }
    ensures usage { result ≡ PictureStatus.Usage → (said : PictureSaid) → IsPictureWords (texts words.now) said → ⊥ }
    ensures cause { result ≢ PictureStatus.Usage → result ≢ PictureStatus.Ended Status.NoMemory →
        (HasPicture result → ⊥) → (said : PictureSaid) × IsPictureWords (texts words.now) said ×
        HasPictureCause (H.faults shelf.old) (H.faults shelf.new) (H.told shelf.old) (H.told shelf.new) said result }
    ensures write { (count : ℕ) → result ≡ PictureStatus.Ended (Status.WriteFault count) →
        (count ≡ 1) × Rose (K.faults out.old) (K.faults out.new) }
    ensures beginning { (count : ℕ) → result ≡ PictureStatus.Ended (Status.WriteFault count) →
        (said : PictureSaid) × IsPictureWords (texts words.now) said ×
        WritesFront (H.told shelf.old) said (K.taken out.old) (K.taken out.new) }
    ensures still_shelf { (IsReadFault (as_check result) → ⊥) → H.faults shelf.new ≡ H.faults shelf.old }
    ensures once_shelf { IsReadFault (as_check result) → RoseOnce (H.faults shelf.old) (H.faults shelf.new) }
    ensures still_sink { (IsWriteFault (as_check result) → ⊥) → K.faults out.new ≡ K.faults out.old }
    ensures once_sink { IsWriteFault (as_check result) → RoseOnce (K.faults out.old) (K.faults out.new) }
    ensures keeps { KeepsFiles (H.told shelf.old) (H.told shelf.new) }
    ensures unwritten { (HasPicture result → ⊥) → K.taken out.new ≡ K.taken out.old }
{
    let words = match read_words(alloc, words) {
        Ok(words) => words,
        Err(WordsFault::Usage) => return PictureStatus::Usage,
        Err(WordsFault::NoMemory) => return PictureStatus::Ended(Status::NoMemory),
    };
    let text = match text_by(alloc, words, shelf) {
        Ok(text) => text,
        Err(status) => return status,
    };
    let Ok(()) = write_all(out, &text) else {
        return PictureStatus::Ended(Status::WriteFault { count: 1 });
    };
    PictureStatus::Ok
}

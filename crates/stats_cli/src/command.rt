//! The job of telling numbers, from the words to the written text.
ghost use Rattle.std.specs.Prelude.{◌≡◌, ◌≢◌, ◌⊎◌, ℕ, IfSome, IsSomeAnd};
ghost use Rattle.command_words.specs.Line.{texts};
ghost use Rattle.outside.specs.Rose.{Rose, RoseOnce};
ghost use Rattle.command_files.specs.Ends.{IsStill, IsReadFault, IsWriteFault};
ghost use Rattle.command_files.specs.Shelves.{KeepsFiles, OfBoth, ReadsOut};
ghost use Rattle.command_files.specs.Turns.{FilesInTurn};
ghost use Rattle.command_files.specs.declared.status.Status.{Status};
ghost use Rattle.stats_cli.specs.Complete.{AreGoodFiles, CallFor, IsPastFiles};
ghost use Rattle.stats_cli.specs.Numbers.{HasNumbers, HasStatsCause, check_of};
ghost use Rattle.stats_cli.specs.Status.{as_check};
ghost use Rattle.stats_cli.specs.Words.{IsStatsWords, StatsSaid};
ghost use Rattle.stats_cli.specs.Written.{WritesFront, WritesStats};

use crate::files::read_files;
use crate::numbers::text_of;
use crate::status::StatsStatus;
use crate::words::read_words;
use command_files::Status;
use command_words::WordsFault;
use outside::{Shelf, Sink, write_all};
use std::alloc::Global;

/// Tells the numbers of the schedule that the words name, and writes them to the sink.
///
/// The words are `TRACE REPORT`, and options before, between or behind them, each at most once: `--weights FILE` and
/// `--unit MEGABYTES` as for `sincronia check`; `--slot-ms MILLISECONDS`, from 1 to 2^20, by which the coflows of an
/// online run arrive, 8 without it, and with which numbers are told in milliseconds too; and `--csv`, which asks for a
/// row for each coflow.
///
/// The trace, the weights and the report are read in this order, and the first fault ends the job. The report is that
/// of a plan or of an online run, and it is checked as `sincronia check` does it. A plan whose cost is above the ratio
/// to its bound, which may be that of a given order, has numbers all the same.
///
/// The statuses are:
/// - `Ok`: the numbers were written whole.
/// - `No`: the answer of the check is no, and not by the ratio.
/// - `Usage`: the words are no command line.
/// - `Ended`: as `sincronia check` ends before it writes, or at a fault of the sink, or where no memory was to be had.
///
/// What is told rests on this: the schedule is valid, that of an online run serves nobody before its arrival, its cost
/// is the stated one, and the bound or the total is at most the cost of each such schedule.
///
/// Nothing was written but at `Ok`, and at a fault of the sink, where a beginning of the text was written. The files on
/// the shelf are as before, and at every status but `Usage`, those that come before the check and want of memory each
/// of them was read to its end. Where they are told and good, the status is the one that their report calls for; only a
/// fault of shelf or sink and want of memory may come in its place. The shelf's count of faults rises by one at a fault
/// of the shelf, and the sink's at a fault of the sink, each up to 2^64 - 1, and neither does at any other status.
pub fn sincronia_stats<H: Shelf, K: Sink>(
    alloc: Global,
    words: &[String],
    shelf: &mut H,
    out: &mut K,
) -> StatsStatus
    ensures stats { result ≡ StatsStatus.Ok → (said : StatsSaid) × IsStatsWords (texts words.now) said ×
        WritesStats (H.told shelf.old) said (K.taken out.old) (K.taken out.new) }
    ensures complete { (said : StatsSaid) (answer : StatsStatus) → IsStatsWords (texts words.now) said →
        IsSomeAnd (H.told shelf.old) (CallFor said answer) → IsStill (H.faults shelf.old) (H.faults shelf.new) →
        IsStill (K.faults out.old) (K.faults out.new) →
        (result ≡ answer) ⊎ (result ≡ StatsStatus.Ended Status.NoMemory) }
    ensures good { IsPastFiles result → (said : StatsSaid) × IsStatsWords (texts words.now) said ×
        IfSome (H.told shelf.old) (AreGoodFiles said) }
    ensures read_out { (said : StatsSaid) → IsStatsWords (texts words.now) said → IsPastFiles result →
        OfBoth (H.told shelf.old) (H.told shelf.new) (ReadsOut (check_of said).job (check_of said)) }
    ensures in_turn { (said : StatsSaid) → IsStatsWords (texts words.now) said →
        OfBoth (H.told shelf.old) (H.told shelf.new) (FilesInTurn (check_of said) (as_check result)) }
    ensures usage { result ≡ StatsStatus.Usage → (said : StatsSaid) → IsStatsWords (texts words.now) said → ⊥ }
    ensures cause { result ≢ StatsStatus.Usage → result ≢ StatsStatus.Ended Status.NoMemory →
        (HasNumbers result → ⊥) → (said : StatsSaid) × IsStatsWords (texts words.now) said ×
        HasStatsCause (H.faults shelf.old) (H.faults shelf.new) (H.told shelf.old) (H.told shelf.new) said result }
    ensures write { (count : ℕ) → result ≡ StatsStatus.Ended (Status.WriteFault count) →
        (count ≡ 1) × Rose (K.faults out.old) (K.faults out.new) }
    ensures beginning { (count : ℕ) → result ≡ StatsStatus.Ended (Status.WriteFault count) →
        (said : StatsSaid) × IsStatsWords (texts words.now) said ×
        WritesFront (H.told shelf.old) said (K.taken out.old) (K.taken out.new) }
    ensures still_shelf { (IsReadFault (as_check result) → ⊥) → H.faults shelf.new ≡ H.faults shelf.old }
    ensures once_shelf { IsReadFault (as_check result) → RoseOnce (H.faults shelf.old) (H.faults shelf.new) }
    ensures still_sink { (IsWriteFault (as_check result) → ⊥) → K.faults out.new ≡ K.faults out.old }
    ensures once_sink { IsWriteFault (as_check result) → RoseOnce (K.faults out.old) (K.faults out.new) }
    ensures keeps { KeepsFiles (H.told shelf.old) (H.told shelf.new) }
    ensures unwritten { (HasNumbers result → ⊥) → K.taken out.new ≡ K.taken out.old }
{
    let words = match read_words(alloc, words) {
        Ok(words) => words,
        Err(WordsFault::Usage) => return StatsStatus::Usage,
        Err(WordsFault::NoMemory) => return StatsStatus::Ended(Status::NoMemory),
    };
    let files = match read_files(alloc, words, shelf) {
        Ok(files) => files,
        Err(status) => return StatsStatus::Ended(status),
    };
    let told = text_of(alloc, words, &files.input, &files.report);
    drop(files);
    let text = match told {
        Ok(text) => text,
        Err(status) => return status,
    };
    let Ok(()) = write_all(out, &text) else {
        return StatsStatus::Ended(Status::WriteFault { count: 1 });
    };
    StatsStatus::Ok
}

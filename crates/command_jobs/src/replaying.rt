//! The command `replay`: rankers side by side on a trace whose coflows arrive.
ghost use Rattle.std.specs.Prelude.{◌≡◌, ◌≢◌, ◌<◌, ◌≤◌, ◌^◌, ◌⊎◌, ℕ, [], All, Contains, Err, IfErr, IfOk, IfSome, OnOk, drop, length, map};
ghost use Rattle.coflow_units.specs.declared.limits.TheConstants.{MAX_WEIGHT};
ghost use Rattle.coflow_units.specs.declared.quantity.Quantity.TheVariants.{Epochs};
ghost use Rattle.command_words.specs.Jobs.Job.{replay_job};
ghost use Rattle.command_words.specs.Words.{said_with};
ghost use Rattle.flow_table.specs.Table.{IsTable};
ghost use Rattle.rankers.specs.Meaning.{Meaning};
ghost use Rattle.replays.specs.declared.rows.ReplayFault.TheVariants.{TooMany};
ghost use Rattle.replays.specs.declared.writing.ReplayReport.{ReplayReport};
ghost use Rattle.replays.specs.Replayed.{IsTooManyFor};
ghost use Rattle.replays.specs.Reported.{IsBounded, IsReported};
ghost use Rattle.replays.specs.Text.{replay_text};
ghost use Rattle.command_files.specs.JobCauses.{HasFilesCause};
ghost use Rattle.command_files.specs.GoodFiles.{HasGoodFiles};
ghost use Rattle.command_files.specs.Ends.{CountsFault, IfPastFiles};
ghost use Rattle.command_files.specs.Shelves.{KeepsFiles, OfBoth, ReadsOut};
ghost use Rattle.command_files.specs.Turns.{FilesInTurn};
ghost use Rattle.command_jobs.specs.Online.{IsEpochsCause};
ghost use Rattle.command_jobs.specs.Publishing.{PublishesFew};
ghost use Rattle.command_jobs.specs.Replay.{IsStatusOfReplay, ReplayOf, ReplaysPublishMore, arriving};

use coflow_units::Quantity;
use command_files::{Input, Outcome, Status, read_input};
use command_words::Options;
use online_check::arrivals_of;
use outside::Shelf;
use rankers::Ranker;
use replays::{ReplayFault, replays_text};
use report_text::Text;
use std::alloc::Global;

/// The text of the replays of the rankers of the bench on the trace of that name, whose coflows arrive. Each ranker
/// that was reached is dropped; the bench keeps the others, in their order.
pub fn replay_rankers<'a, H: Shelf>(
    alloc: Global,
    trace: &str,
    options: Options<'a>,
    shelf: &mut H,
    bench: &mut Vec<Box<dyn Ranker>>,
) -> Result<Outcome, Status>
    requires few { length bench.old.items < 2 ^ 32 }
    ensures outcome { IfOk result (λ o. (o.status ≡ Status.Ok) ×
        ReplayOf (H.told shelf.old) (said_with (replay_job trace.now) options.entry)
        (map (λ b. meaning b) bench.old.items) o.text) }
    ensures few { OnOk result (IfSome (H.told shelf.old) (PublishesFew (map (λ b. meaning b) bench.old.items)
        (replay_job trace.now) (said_with (replay_job trace.now) options.entry))) }
    ensures empty { OnOk result (bench.new.items ≡ []) }
    ensures left { (reached : ℕ) × (bench.new.items ≡ drop reached bench.old.items) }
    ensures same { IfErr result (λ status. status ≢ Status.NoMemory →
        ((count : ℕ) → status ≢ Status.Limit Epochs count) → bench.new.items ≡ bench.old.items) }
    ensures read_out { IfPastFiles result (OfBoth (H.told shelf.old) (H.told shelf.new)
        (ReadsOut (replay_job trace.now) (said_with (replay_job trace.now) options.entry))) }
    ensures good { IfPastFiles result (IfSome (H.told shelf.old) (HasGoodFiles (replay_job trace.now)
        (said_with (replay_job trace.now) options.entry))) }
    ensures in_turn { IfErr result (λ status. OfBoth (H.told shelf.old) (H.told shelf.new)
        (FilesInTurn (said_with (replay_job trace.now) options.entry) status)) }
    ensures keeps { KeepsFiles (H.told shelf.old) (H.told shelf.new) }
    ensures counts { CountsFault (H.faults shelf.old) (H.faults shelf.new) result }
    ensures cause { IfErr result (λ status.
        HasFilesCause (H.faults shelf.old) (H.faults shelf.new) (H.told shelf.old) (H.told shelf.new)
        (said_with (replay_job trace.now) options.entry) status
        ⊎ IsEpochsCause (λ count. IfSome (H.told shelf.old) (ReplaysPublishMore
        (map (λ b. meaning b) bench.old.items) (said_with (replay_job trace.now) options.entry) count)) status) }
{
    let input = read_input(alloc, trace, options.weights, options.unit, shelf)?;
    let replayed = replays_of(alloc, &input, options, bench);
    drop(input);
    match replayed {
        Ok(text) => Ok(Outcome {
            text: Text::of_bytes(text),
            status: Status::Ok,
        }),
        Err(fault) => Err(status_of(fault)),
    }
}

/// The text of the replays on the input. Of the options those of slots and epochs are used.
fn replays_of<'a>(
    alloc: Global,
    input: &Input,
    options: Options<'a>,
    bench: &mut Vec<Box<dyn Ranker>>,
) -> Result<Vec<u8>, ReplayFault>
    requires table { IsTable input.now.table }
    requires count { length input.now.weights ≡ length input.now.table.ids }
    requires weights { All (λ w. w ≤ MAX_WEIGHT) input.now.weights }
    requires few { length bench.old.items < 2 ^ 32 }
    ensures text { IfOk result (λ text. (r : ReplayReport) × IsReported
        (arriving input.now.table input.now.weights options.entry.slot_ms options.entry.epoch)
        (map (λ b. meaning b) bench.old.items) r × IsBounded
        (arriving input.now.table input.now.weights options.entry.slot_ms options.entry.epoch) r ×
        (text.items ≡ replay_text r)) }
    ensures few { OnOk result ((ranker : Meaning) (count : ℕ) → Contains (map (λ b. meaning b) bench.old.items) ranker →
        IsTooManyFor (arriving input.now.table input.now.weights options.entry.slot_ms options.entry.epoch) ranker
        count → ⊥) }
    ensures empty { OnOk result (bench.new.items ≡ []) }
    ensures left { (reached : ℕ) × (bench.new.items ≡ drop reached bench.old.items) }
    ensures too_many { (count : ℕ) → result ≡ Err (TooMany count) →
        (ranker : Meaning) × Contains (map (λ b. meaning b) bench.old.items) ranker × IsTooManyFor
        (arriving input.now.table input.now.weights options.entry.slot_ms options.entry.epoch) ranker count }
{
    let arrivals = arrivals_of(alloc, &input.table, options.slot_ms)?;
    replays_text(
        alloc,
        &input.table,
        input.weights.as_slice(),
        &arrivals,
        options.epoch,
        bench,
    )
}

/// The status of a fault of replays.
pub(crate) fn status_of(fault: ReplayFault) -> Status
    ensures { IsStatusOfReplay fault result }
{
    match fault {
        ReplayFault::TooMany { count } => Status::Limit {
            which: Quantity::Epochs,
            count,
        },
        ReplayFault::NoMemory => Status::NoMemory,
    }
}

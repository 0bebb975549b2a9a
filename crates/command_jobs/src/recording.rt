//! The command `replay --policy`: the record of the replay of one ranker.
ghost use Rattle.std.specs.Prelude.{◌≡◌, ◌≢◌, ◌<◌, ◌≤◌, ◌⊎◌, ℕ, ◌∷◌, [], All, Bool, Err, IfErr, IfNone, IfOk, IfSome, OnOk, drop, length, map};
ghost use Rattle.coflow_units.specs.declared.limits.TheConstants.{MAX_WEIGHT};
ghost use Rattle.coflow_units.specs.declared.quantity.Quantity.TheVariants.{Epochs};
ghost use Rattle.coflow_units.specs.Flows.{IsDistinct};
ghost use Rattle.command_words.specs.Jobs.Job.{record_job};
ghost use Rattle.command_words.specs.Words.{said_with};
ghost use Rattle.flow_table.specs.Table.{IsTable};
ghost use Rattle.rankers.specs.Meaning.{Meaning};
ghost use Rattle.replays.specs.declared.rows.ReplayFault.TheVariants.{TooMany};
ghost use Rattle.replays.specs.Recorded.{HasForm, IsRecorded};
ghost use Rattle.replays.specs.Replayed.{IsTooManyFor};
ghost use Rattle.command_files.specs.JobCauses.{HasFilesCause};
ghost use Rattle.command_files.specs.GoodFiles.{HasGoodFiles};
ghost use Rattle.command_files.specs.Ends.{CountsFault, IfPastFiles};
ghost use Rattle.command_files.specs.Shelves.{KeepsFiles, OfBoth, ReadsOut};
ghost use Rattle.command_files.specs.Turns.{FilesInTurn};
ghost use Rattle.command_jobs.specs.Check.{status_for};
ghost use Rattle.command_jobs.specs.Online.{IsEpochsCause};
ghost use Rattle.command_jobs.specs.Publishing.{PublishesFew};
ghost use Rattle.command_jobs.specs.Record.{IsPolicyAt, IsPolicyCause, LacksPolicy, PolicyOf, RecordPublishesMore, IsRightIfRun, IsToldText};
ghost use Rattle.command_jobs.specs.Replay.{arriving};
ghost use Rattle.std.specs.Str.{bytes_eq};

use crate::replaying::status_of;
use command_files::{Input, Outcome, Status, read_input};
use command_words::Options;
use online_check::arrivals_of;
use online_text::write_online;
use outside::Shelf;
use rankers::Ranker;
use replays::laws::records_are_right;
use replays::{Recorded, ReplayFault, record_replay, write_replay};
use report_text::Text;
use std::alloc::Global;

/// The text of the record of the replay of one ranker on the trace of that name, whose coflows arrive: of the first
/// ranker of the bench that has the name of the policy. Where an answer of it is no order, there is no record: then the
/// status is `No`, and the text is that of the replay of this ranker alone.
///
/// On success the bench is empty. Where no ranker has the name, no file is looked at. Where more orders would be
/// published than may be, or memory was wanting, the rankers up to the one of the name may be gone.
pub fn record_policy<'a, H: Shelf>(
    alloc: Global,
    trace: &str,
    policy: &str,
    options: Options<'a>,
    shelf: &mut H,
    bench: &mut Vec<Box<dyn Ranker>>,
) -> Result<Outcome, Status>
    ensures outcome { IfOk result (λ o. (yes : Bool) × (o.status ≡ status_for yes) ×
        PolicyOf (H.told shelf.old) (said_with (record_job trace.now policy.now) options.entry) policy.now
        (map (λ b. meaning b) bench.old.items) yes o.text) }
    ensures few { OnOk result (IfSome (H.told shelf.old) (PublishesFew (map (λ b. meaning b) bench.old.items)
        (record_job trace.now policy.now) (said_with (record_job trace.now policy.now) options.entry))) }
    ensures empty { OnOk result (bench.new.items ≡ []) }
    ensures left { (reached : ℕ) × (bench.new.items ≡ drop reached bench.old.items) }
    ensures same { IfErr result (λ status. status ≢ Status.NoMemory →
        ((count : ℕ) → status ≢ Status.Limit Epochs count) → bench.new.items ≡ bench.old.items) }
    ensures unread { result ≡ Err Status.UnknownPolicy →
        (H.told shelf.new ≡ H.told shelf.old) × (H.faults shelf.new ≡ H.faults shelf.old) }
    ensures lacks_policy { LacksPolicy (map (λ b. meaning b) bench.old.items) (record_job trace.now policy.now) →
        result ≡ Err Status.UnknownPolicy }
    ensures read_out { IfPastFiles result (OfBoth (H.told shelf.old) (H.told shelf.new)
        (ReadsOut (record_job trace.now policy.now) (said_with (record_job trace.now policy.now) options.entry))) }
    ensures good { IfPastFiles result (IfSome (H.told shelf.old) (HasGoodFiles (record_job trace.now policy.now)
        (said_with (record_job trace.now policy.now) options.entry))) }
    ensures in_turn { IfErr result (λ status. OfBoth (H.told shelf.old) (H.told shelf.new)
        (FilesInTurn (said_with (record_job trace.now policy.now) options.entry) status)) }
    ensures keeps { KeepsFiles (H.told shelf.old) (H.told shelf.new) }
    ensures counts { CountsFault (H.faults shelf.old) (H.faults shelf.new) result }
    ensures cause { IfErr result (λ status.
        HasFilesCause (H.faults shelf.old) (H.faults shelf.new) (H.told shelf.old) (H.told shelf.new)
        (said_with (record_job trace.now policy.now) options.entry) status
        ⊎ (IsEpochsCause (λ count. IfSome (H.told shelf.old) (RecordPublishesMore
        (map (λ b. meaning b) bench.old.items) policy.now
        (said_with (record_job trace.now policy.now) options.entry) count)) status
        ⊎ IsPolicyCause (LacksPolicy (map (λ b. meaning b) bench.old.items) (record_job trace.now policy.now))
        status)) }
{
    let Some(place) = place_of(bench, policy) else {
        return Err(Status::UnknownPolicy);
    };
    let input = read_input(alloc, trace, options.weights, options.unit, shelf)?;
    let ranker = take_at(bench, place);
    let recorded = record_of(alloc, &input, options, ranker);
    drop(input);
    match recorded {
        Ok(recorded) => {
            let outcome = told(alloc, recorded)?;
            bench.clear();
            Ok(outcome)
        }
        Err(fault) => Err(status_of(fault)),
    }
}

/// Behind how many rankers of the bench the first one stands that has this name, or `None` where none has it.
fn place_of(bench: &[Box<dyn Ranker>], policy: &str) -> Option<usize>
    ensures some { IfSome result (IsPolicyAt (map (λ b. meaning b) bench.now) policy.now) }
    ensures none { IfNone result (All (λ (m : Meaning). m.name ≢ policy.now) (map (λ b. meaning b) bench.now)) }
{
    for place in 0..bench.len() {
        if is_named(&bench[place], policy) {
            return Some(place);
        }
    }
    None
}

/// The ranker has this name.
fn is_named(ranker: &Box<dyn Ranker>, name: &str) -> bool
    ensures { result ≡ bytes_eq (meaning ranker.now).name name.now }
{
    ranker.name() == name
}

/// Takes the ranker that stands behind so many others off the bench, and drops those.
fn take_at(bench: &mut Vec<Box<dyn Ranker>>, place: usize) -> Box<dyn Ranker>
    requires { place < length bench.old.items }
    ensures { drop place bench.old.items ≡ result ∷ bench.new.items }
{
    for _ in 0..place {
        drop(bench.remove(0));
    }
    bench.remove(0)
}

/// What the replay of the ranker on the input is recorded as. Of the options those of slots and epochs are used.
fn record_of<'a>(
    alloc: Global,
    input: &Input,
    options: Options<'a>,
    ranker: Box<dyn Ranker>,
) -> Result<Recorded, ReplayFault>
    requires table { IsTable input.now.table }
    requires count { length input.now.weights ≡ length input.now.table.ids }
    requires weights { All (λ w. w ≤ MAX_WEIGHT) input.now.weights }
    requires ids { IsDistinct input.now.table.ids }
    ensures recorded { IfOk result (IsRecorded
        (arriving input.now.table input.now.weights options.entry.slot_ms options.entry.epoch) (meaning ranker)) }
    ensures form { IfOk result HasForm }
    ensures right { IfOk result (IsRightIfRun
        (arriving input.now.table input.now.weights options.entry.slot_ms options.entry.epoch)) }
    ensures few { OnOk result ((count : ℕ) → IsTooManyFor
        (arriving input.now.table input.now.weights options.entry.slot_ms options.entry.epoch) (meaning ranker) count →
        ⊥) }
    ensures too_many { (count : ℕ) → result ≡ Err (TooMany count) → IsTooManyFor
        (arriving input.now.table input.now.weights options.entry.slot_ms options.entry.epoch) (meaning ranker) count }
{
    records_are_right();
    let arrivals = arrivals_of(alloc, &input.table, options.slot_ms)?;
    record_replay(
        alloc,
        &input.table,
        input.weights.as_slice(),
        &arrivals,
        options.epoch,
        ranker,
    )
}

/// The text of what a replay is recorded as, and the status that it ends with. The error is want of memory.
fn told(alloc: Global, recorded: Recorded) -> Result<Outcome, Status>
    ensures told { IfOk result (λ o. IsToldText recorded o.status o.text) }
    ensures memory { IfErr result (λ status. status ≡ Status.NoMemory) }
{
    match recorded {
        Recorded::Run(online) => {
            let text = write_online(alloc, online)?;
            Ok(Outcome {
                text,
                status: Status::Ok,
            })
        }
        Recorded::Unfit(report) => {
            let text = write_replay(alloc, &report)?;
            Ok(Outcome {
                text: Text::of_bytes(text),
                status: Status::No,
            })
        }
    }
}

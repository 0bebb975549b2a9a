//! The command `compare`: rankers side by side on a trace.
ghost use Rattle.std.specs.Prelude.{◌≡◌, ◌≢◌, ◌<◌, ◌^◌, ℕ, [], All, IfErr, IfOk, IfSome, OnOk, drop, length, map, take};
ghost use Rattle.command_words.specs.Jobs.Job.{compare_job};
ghost use Rattle.command_words.specs.Words.{said_with};
ghost use Rattle.rankers.specs.FactsTold.{FactsTold};
ghost use Rattle.command_files.specs.JobCauses.{HasFilesCause};
ghost use Rattle.command_jobs.specs.Compare.{ComparisonOf, IsFactsOfFiles};
ghost use Rattle.command_files.specs.GoodFiles.{HasGoodFiles};
ghost use Rattle.command_files.specs.Ends.{CountsFault};
ghost use Rattle.command_files.specs.Shelves.{KeepsFiles, OfBoth, ReadsOut};
ghost use Rattle.command_files.specs.Turns.{FilesInTurn};

use command_files::{Outcome, Status, read_input};
use command_words::Options;
use outside::Shelf;
use plans::bound_of;
use rankers::{Ranker, comparison_text};
use report_text::Text;
use std::alloc::Global;

/// The text of the comparison of the rankers of the bench on the trace of that name. Each ranker that was reached was
/// asked with the facts of the table and the weights that the files give, and is dropped; the bench keeps the others,
/// in their order.
pub fn compare_rankers<'a, H: Shelf>(
    alloc: Global,
    trace: &str,
    options: Options<'a>,
    shelf: &mut H,
    bench: &mut Vec<Box<dyn Ranker>>,
) -> Result<Outcome, Status>
    requires few { length bench.old.items < 2 ^ 32 }
    ensures outcome { IfOk result (λ o. (o.status ≡ Status.Ok) ×
        ComparisonOf (H.told shelf.old) (said_with (compare_job trace.now) options.entry)
        (map (λ b. meaning b) bench.old.items) o.text) }
    ensures empty { OnOk result (bench.new.items ≡ []) }
    ensures left { (reached : ℕ) × (bench.new.items ≡ drop reached bench.old.items) ×
        All (λ b. (facts : FactsTold) × IsFactsOfFiles (H.told shelf.old)
        (said_with (compare_job trace.now) options.entry) facts × answered b facts) (take reached bench.old.items) }
    ensures same { IfErr result (λ status. status ≢ Status.NoMemory → bench.new.items ≡ bench.old.items) }
    ensures read_out { OnOk result (OfBoth (H.told shelf.old) (H.told shelf.new)
        (ReadsOut (compare_job trace.now) (said_with (compare_job trace.now) options.entry))) }
    ensures good { OnOk result (IfSome (H.told shelf.old) (HasGoodFiles (compare_job trace.now)
        (said_with (compare_job trace.now) options.entry))) }
    ensures in_turn { IfErr result (λ status. OfBoth (H.told shelf.old) (H.told shelf.new)
        (FilesInTurn (said_with (compare_job trace.now) options.entry) status)) }
    ensures keeps { KeepsFiles (H.told shelf.old) (H.told shelf.new) }
    ensures counts { CountsFault (H.faults shelf.old) (H.faults shelf.new) result }
    ensures cause { IfErr result
        (HasFilesCause (H.faults shelf.old) (H.faults shelf.new) (H.told shelf.old) (H.told shelf.new)
        (said_with (compare_job trace.now) options.entry)) }
{
    let input = read_input(alloc, trace, options.weights, options.unit, shelf)?;
    let Ok(bound) = bound_of(alloc, &input.table, input.weights.as_slice()) else {
        drop(input);
        return Err(Status::NoMemory);
    };
    let written = comparison_text(alloc, &input.table, input.weights.as_slice(), bound, bench);
    drop(input);
    let text = written?;
    Ok(Outcome {
        text: Text::of_bytes(text),
        status: Status::Ok,
    })
}

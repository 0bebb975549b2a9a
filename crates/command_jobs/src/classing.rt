//! The command `classes`: the order of a trace, folded into classes.
ghost use Rattle.std.specs.Prelude.{◌≡◌, IfErr, IfOk, IfSome, OnOk};
ghost use Rattle.command_words.specs.Jobs.Job.{classes_job};
ghost use Rattle.command_words.specs.Words.{said_with};
ghost use Rattle.command_files.specs.JobCauses.{HasFilesCause};
ghost use Rattle.command_jobs.specs.Classes.{ClassesOf};
ghost use Rattle.command_files.specs.GoodFiles.{HasGoodFiles};
ghost use Rattle.command_files.specs.Ends.{CountsFault};
ghost use Rattle.command_files.specs.Shelves.{KeepsFiles, OfBoth, ReadsOut};
ghost use Rattle.command_files.specs.Turns.{FilesInTurn};

use command_files::{Outcome, Status, read_input};
use command_words::Options;
use outside::Shelf;
use rankers::classes_text;
use std::alloc::Global;

/// The text of the classes of the coflows of the trace of that name.
pub fn list_classes<'a, H: Shelf>(
    alloc: Global,
    trace: &str,
    options: Options<'a>,
    shelf: &mut H,
) -> Result<Outcome, Status>
    ensures outcome { IfOk result (λ o. (o.status ≡ Status.Ok) ×
        ClassesOf (H.told shelf.old) (said_with (classes_job trace.now) options.entry) o.text) }
    ensures read_out { OnOk result (OfBoth (H.told shelf.old) (H.told shelf.new)
        (ReadsOut (classes_job trace.now) (said_with (classes_job trace.now) options.entry))) }
    ensures good { OnOk result (IfSome (H.told shelf.old) (HasGoodFiles (classes_job trace.now)
        (said_with (classes_job trace.now) options.entry))) }
    ensures in_turn { IfErr result (λ status. OfBoth (H.told shelf.old) (H.told shelf.new)
        (FilesInTurn (said_with (classes_job trace.now) options.entry) status)) }
    ensures keeps { KeepsFiles (H.told shelf.old) (H.told shelf.new) }
    ensures counts { CountsFault (H.faults shelf.old) (H.faults shelf.new) result }
    ensures cause { IfErr result
        (HasFilesCause (H.faults shelf.old) (H.faults shelf.new) (H.told shelf.old) (H.told shelf.new)
        (said_with (classes_job trace.now) options.entry)) }
{
    let input = read_input(alloc, trace, options.weights, options.unit, shelf)?;
    let written = classes_text(
        alloc,
        &input.table,
        input.weights.as_slice(),
        options.fold,
        options.classes as u32,
    );
    drop(input);
    let text = written?;
    Ok(Outcome {
        text,
        status: Status::Ok,
    })
}

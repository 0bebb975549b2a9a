//! The command `serve`: a given order of the coflows of a trace.
ghost use Rattle.std.specs.Prelude.{◌≡◌, IfErr, IfOk, IfSome, OnOk};
ghost use Rattle.command_words.specs.Jobs.Job.{serve_job};
ghost use Rattle.command_words.specs.Words.{said_with};
ghost use Rattle.command_files.specs.JobCauses.{HasFilesCause};
ghost use Rattle.command_jobs.specs.Ordered.{ServedOf};
ghost use Rattle.command_files.specs.GoodFiles.{HasGoodFiles};
ghost use Rattle.command_files.specs.Ends.{CountsFault};
ghost use Rattle.command_files.specs.Shelves.{KeepsFiles, OfBoth, ReadsOut};
ghost use Rattle.command_files.specs.Turns.{FilesInTurn};

use command_files::{Outcome, Status, read_input, read_order_file};
use command_words::Options;
use orders::laws::orders_have_each_coflow_once;
use outside::Shelf;
use plans::report_of_order;
use report_text::write_report;
use std::alloc::Global;

/// The text of the report of the order of that name, of the coflows of the trace of the other, or the status of why
/// there is none.
pub fn serve_order<'a, H: Shelf>(
    alloc: Global,
    trace: &str,
    order: &str,
    options: Options<'a>,
    shelf: &mut H,
) -> Result<Outcome, Status>
    ensures outcome { IfOk result (λ o. (o.status ≡ Status.Ok) ×
        ServedOf (H.told shelf.old) (said_with (serve_job trace.now order.now) options.entry) o.text) }
    ensures read_out { OnOk result (OfBoth (H.told shelf.old) (H.told shelf.new)
        (ReadsOut (serve_job trace.now order.now)
        (said_with (serve_job trace.now order.now) options.entry))) }
    ensures good { OnOk result (IfSome (H.told shelf.old) (HasGoodFiles (serve_job trace.now order.now)
        (said_with (serve_job trace.now order.now) options.entry))) }
    ensures in_turn { IfErr result (λ status. OfBoth (H.told shelf.old) (H.told shelf.new)
        (FilesInTurn (said_with (serve_job trace.now order.now) options.entry) status)) }
    ensures keeps { KeepsFiles (H.told shelf.old) (H.told shelf.new) }
    ensures counts { CountsFault (H.faults shelf.old) (H.faults shelf.new) result }
    ensures cause { IfErr result (λ status. HasFilesCause (H.faults shelf.old) (H.faults shelf.new) (H.told shelf.old)
        (H.told shelf.new) (said_with (serve_job trace.now order.now) options.entry) status) }
{
    let input = read_input(alloc, trace, options.weights, options.unit, shelf)?;
    let line = match read_order_file(alloc, order, &input.table, shelf) {
        Ok(line) => line,
        Err(status) => {
            drop(input);
            return Err(status);
        }
    };
    // each coflow of the table stands in the line once
    orders_have_each_coflow_once();
    let weights = input.weights.as_slice();
    let served = report_of_order(alloc, &input.table, weights, line.as_slice());
    drop(input);
    drop(line);
    let report = served?;
    let text = write_report(alloc, report)?;
    Ok(Outcome {
        text,
        status: Status::Ok,
    })
}

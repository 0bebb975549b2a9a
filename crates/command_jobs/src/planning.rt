//! The command `plan`: the plan of a trace, served, as a report.
ghost use Rattle.std.specs.Prelude.{◌≡◌, ℕ, ◌<◌, ◌^◌, ◌⊎◌, IfErr, IfOk, IfSome, OnOk, length};
ghost use Rattle.coflow_units.specs.declared.limits.TheConstants.{MAX_PORTS};
ghost use Rattle.command_words.specs.Jobs.Job.{plan_job};
ghost use Rattle.command_words.specs.Words.{said_with};
ghost use Rattle.hall_plan.specs.Sent.{SendsAll};
ghost use Rattle.command_files.specs.JobCauses.{HasFilesCause};
ghost use Rattle.command_files.specs.GoodFiles.{HasGoodFiles};
ghost use Rattle.command_files.specs.Ends.{CountsFault, IfPastFiles};
ghost use Rattle.command_jobs.specs.Plan.{PlanOf};
ghost use Rattle.command_files.specs.WireCauses.{IsWireCause};
ghost use Rattle.command_jobs.specs.Serving.{MayHaveSent, Sends, Serves, Stops};
ghost use Rattle.command_files.specs.Shelves.{KeepsFiles, OfBoth, ReadsOut};
ghost use Rattle.command_files.specs.Turns.{FilesInTurn};

use crate::serving::serve;
use command_files::{Outcome, Status, read_input};
use command_words::Options;
use outside::{Shelf, Wire};
use report_text::write_report;
use std::alloc::Global;
use std::sync::Wait;
use std::thread::Threads;

/// The text of the plan of the trace of that name, whose units were sent on the wires.
pub fn plan_trace<'a, R: Threads + Wait + Sync, H: Shelf, W: Wire + Send>(
    rt: &R,
    alloc: Global,
    trace: &str,
    options: Options<'a>,
    shelf: &mut H,
    wires: &mut Vec<W>,
) -> Result<Outcome, Status>
    requires wires { MAX_PORTS < length wires.old.items }
    ensures outcome { IfOk result (λ o. (o.status ≡ Status.Ok) ×
        PlanOf (SendsAll W.runs wires.old.items wires.new.items) (H.told shelf.old)
        (said_with (plan_job trace.now) options.entry) o.text) }
    ensures sent { (wires.new.items ≡ wires.old.items) ⊎
        Serves (Sends W.runs wires.old.items wires.new.items) (plan_job trace.now) (H.told shelf.old)
        (said_with (plan_job trace.now) options.entry) }
    ensures unsent { IfErr result (λ status. (MayHaveSent status → ⊥) → wires.new.items ≡ wires.old.items) }
    ensures read_out { IfPastFiles result (OfBoth (H.told shelf.old) (H.told shelf.new)
        (ReadsOut (plan_job trace.now) (said_with (plan_job trace.now) options.entry))) }
    ensures good { IfPastFiles result (IfSome (H.told shelf.old) (HasGoodFiles (plan_job trace.now)
        (said_with (plan_job trace.now) options.entry))) }
    ensures in_turn { IfErr result (λ status. OfBoth (H.told shelf.old) (H.told shelf.new)
        (FilesInTurn (said_with (plan_job trace.now) options.entry) status)) }
    ensures keeps { KeepsFiles (H.told shelf.old) (H.told shelf.new) }
    ensures counts { CountsFault (H.faults shelf.old) (H.faults shelf.new) result }
    ensures cause { IfErr result (λ status.
        HasFilesCause (H.faults shelf.old) (H.faults shelf.new) (H.told shelf.old) (H.told shelf.new)
        (said_with (plan_job trace.now) options.entry) status
        ⊎ IsWireCause (λ port. Serves (Stops W.faults W.runs wires.old.items wires.new.items port)
        (plan_job trace.now) (H.told shelf.old) (said_with (plan_job trace.now) options.entry)) status) }
{
    let input = read_input(alloc, trace, options.weights, options.unit, shelf)?;
    let served = serve(rt, alloc, &input, options.agents as u32, wires);
    drop(input);
    let report = served?;
    let text = write_report(alloc, report)?;
    Ok(Outcome {
        text,
        status: Status::Ok,
    })
}

//! The command `live`: a script of clients over a trace, served, as a text.
ghost use Rattle.std.specs.Prelude.{◌≡◌, ℕ, ◌<◌, ◌≤◌, ◌^◌, ◌⊎◌, All, Err, IfErr, IfOk, IfSome, OnOk, length};
ghost use Rattle.coflow_units.specs.declared.limits.TheConstants.{MAX_CLIENTS, MAX_PORTS, MAX_WEIGHT};
ghost use Rattle.command_words.specs.Jobs.Job.{live_job};
ghost use Rattle.command_words.specs.Words.{said_with};
ghost use Rattle.live_serving.specs.declared.answer.LiveFault.TheVariants.{WireFault};
ghost use Rattle.live_runs.specs.Told.{FailsAt, SendsAll as SendsRun, SendsSoFar, TellsLive, served_in};
ghost use Rattle.hall_plan.specs.Sent.{SendsAll};
ghost use Rattle.command_files.specs.Ends.{CountsFault, IfPastFiles};
ghost use Rattle.command_files.specs.Scripts.{IsShared};
ghost use Rattle.live_runs.specs.Read.{IsRead};
ghost use Rattle.command_files.specs.Shelves.{KeepsFiles, OfBoth, ReadsOut};
ghost use Rattle.command_files.specs.Turns.{FilesInTurn};
ghost use Rattle.command_files.specs.WireCauses.{IsWireCause};
ghost use Rattle.command_files.specs.JobCauses.{HasFilesCause};
ghost use Rattle.command_files.specs.GoodFiles.{HasGoodFiles};
ghost use Rattle.command_jobs.specs.Live.{IsStatusOfLive, LiveOf};
ghost use Rattle.command_jobs.specs.Serving.{MayHaveSent, Sends, Serves, Stops};

use command_files::{Input, LiveInput, Outcome, Status, read_live_files};
use command_words::Options;
use live_rounds::Gate;
use live_runs::served_live;
use live_serving::LiveFault;
use outside::{Shelf, Wire};
use report_text::Text;
use std::alloc::Global;
use std::sync::Wait;
use std::thread::Threads;

/// The text of a run of the script of one name over the trace of the other, whose units were sent on the wires. Each
/// client passes its gate before each command.
pub fn run_clients<'a, R: Threads + Wait + Sync, H: Shelf, W: Wire + Send, G: Gate + Send>(
    rt: &R,
    alloc: Global,
    trace: &str,
    script: &str,
    options: Options<'a>,
    shelf: &mut H,
    wires: &mut Vec<W>,
    gates: &mut Vec<G>,
) -> Result<Outcome, Status>
    requires wires { MAX_PORTS < length wires.old.items }
    requires gates { MAX_CLIENTS ≤ length gates.old.items }
    ensures outcome { IfOk result (λ o. (o.status ≡ Status.Ok) ×
        LiveOf (SendsAll W.runs wires.old.items wires.new.items) (H.told shelf.old)
        (said_with (live_job trace.now script.now) options.entry) o.text) }
    ensures sent { (wires.new.items ≡ wires.old.items) ⊎
        Serves (Sends W.runs wires.old.items wires.new.items) (live_job trace.now script.now) (H.told shelf.old)
        (said_with (live_job trace.now script.now) options.entry) }
    ensures unsent { IfErr result (λ status. (MayHaveSent status → ⊥) → wires.new.items ≡ wires.old.items) }
    ensures read_out { IfPastFiles result (OfBoth (H.told shelf.old) (H.told shelf.new)
        (ReadsOut (live_job trace.now script.now) (said_with (live_job trace.now script.now) options.entry))) }
    ensures good { IfPastFiles result (IfSome (H.told shelf.old) (HasGoodFiles (live_job trace.now script.now)
        (said_with (live_job trace.now script.now) options.entry))) }
    ensures in_turn { IfErr result (λ status. OfBoth (H.told shelf.old) (H.told shelf.new)
        (FilesInTurn (said_with (live_job trace.now script.now) options.entry) status)) }
    ensures keeps { KeepsFiles (H.told shelf.old) (H.told shelf.new) }
    ensures counts { CountsFault (H.faults shelf.old) (H.faults shelf.new) result }
    ensures cause { IfErr result (λ status.
        HasFilesCause (H.faults shelf.old) (H.faults shelf.new) (H.told shelf.old) (H.told shelf.new)
        (said_with (live_job trace.now script.now) options.entry) status
        ⊎ IsWireCause (λ port. Serves (Stops W.faults W.runs wires.old.items wires.new.items port)
        (live_job trace.now script.now) (H.told shelf.old)
        (said_with (live_job trace.now script.now) options.entry)) status) }
{
    let files = read_live_files(alloc, trace, script, options, shelf)?;
    match serve_script(rt, alloc, files, options, wires, gates) {
        Ok(text) => Ok(Outcome {
            text,
            status: Status::Ok,
        }),
        Err(fault) => Err(status_of(fault)),
    }
}

/// The text of a run of the files' script, whose units were sent. Of the options those of runs and agents are used.
fn serve_script<'a, R: Threads + Wait + Sync, W: Wire + Send, G: Gate + Send>(
    rt: &R,
    alloc: Global,
    files: LiveInput,
    options: Options<'a>,
    wires: &mut Vec<W>,
    gates: &mut Vec<G>,
) -> Result<Text, LiveFault>
    requires count { length files.input.weights ≡ length files.input.table.ids }
    requires least { All (λ w. 1 ≤ w) files.input.weights }
    requires weights { All (λ w. w ≤ MAX_WEIGHT) files.input.weights }
    requires shared { IsShared files.input.table }
    requires script { IsRead files.input.table.ids files.script }
    requires wires { MAX_PORTS < length wires.old.items }
    requires gates { MAX_CLIENTS ≤ length gates.old.items }
    ensures text { IfOk result (λ text.
        (told : TellsLive files.input.table files.input.weights files.script options.entry.run text) ×
        SendsRun W.runs wires.old.items wires.new.items files.input.table
        (served_in files.input.table files.input.weights files.script told.journal)) }
    ensures sent { SendsSoFar W.runs wires.old.items wires.new.items files.input.table files.input.weights
        files.script }
    ensures fault { (port : ℕ) → result ≡ Err (WireFault port) →
        FailsAt W.faults W.runs wires.old.items wires.new.items port files.input.table files.input.weights
        files.script }
{
    let LiveInput { input, script } = files;
    let Input { table, weights } = input;
    served_live(
        alloc,
        rt,
        table,
        weights,
        &script,
        options.run,
        options.agents as u32,
        gates,
        wires,
    )
}

/// The status of a fault of a run.
fn status_of(fault: LiveFault) -> Status
    ensures { IsStatusOfLive fault result }
{
    match fault {
        LiveFault::WireFault { port } => Status::WireFault { port, count: 1 },
        LiveFault::NoMemory => Status::NoMemory,
    }
}

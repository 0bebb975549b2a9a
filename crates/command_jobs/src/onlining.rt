//! The command `online`: the online run of a trace, served, as a text.
ghost use Rattle.std.specs.Prelude.{◌≡◌, ℕ, ◌<◌, ◌≤◌, ◌^◌, ◌⊎◌, All, Err, IfErr, IfOk, IfSome, OnOk, length};
ghost use Rattle.coflow_units.specs.declared.limits.TheConstants.{MAX_PORTS, MAX_WEIGHT};
ghost use Rattle.command_words.specs.Jobs.Job.{online_job};
ghost use Rattle.command_words.specs.Words.{said_with};
ghost use Rattle.flow_table.specs.Table.{IsTable};
ghost use Rattle.hall_online.specs.declared.answer.OnlineFault.TheVariants.{TooMany, WireFault};
ghost use Rattle.hall_online.specs.Told.{FailsAt, PublishesMore, SendsAll as SendsRun, SendsSoFar, StopsShort, TellsOnline};
ghost use Rattle.hall_plan.specs.Sent.{SendsAll};
ghost use Rattle.command_files.specs.Ends.{CountsFault, IfPastFiles};
ghost use Rattle.command_files.specs.Shelves.{KeepsFiles, OfBoth, ReadsOut};
ghost use Rattle.command_files.specs.Turns.{FilesInTurn};
ghost use Rattle.command_files.specs.WireCauses.{IsWireCause};
ghost use Rattle.command_files.specs.JobCauses.{HasFilesCause};
ghost use Rattle.command_files.specs.GoodFiles.{HasGoodFiles};
ghost use Rattle.command_jobs.specs.Online.{FilesPublishMore, IsEpochsCause, IsStatusOfOnline, OnlineOf};
ghost use Rattle.command_jobs.specs.Serving.{MayHaveSent, Sends, Serves, Stops};

use coflow_units::Quantity;
use command_files::{Input, Outcome, Status, read_input};
use command_words::Options;
use hall_online::{OnlineFault, served_online};
use outside::{Shelf, Wire};
use report_text::Text;
use std::alloc::Global;
use std::sync::Wait;
use std::thread::Threads;

/// The text of the online run of the trace of that name, whose units were sent on the wires.
pub fn run_online<'a, R: Threads + Wait + Sync, H: Shelf, W: Wire + Send>(
    rt: &R,
    alloc: Global,
    trace: &str,
    options: Options<'a>,
    shelf: &mut H,
    wires: &mut Vec<W>,
) -> Result<Outcome, Status>
    requires wires { MAX_PORTS < length wires.old.items }
    ensures outcome { IfOk result (λ o. (o.status ≡ Status.Ok) ×
        OnlineOf (SendsAll W.runs wires.old.items wires.new.items) (H.told shelf.old)
        (said_with (online_job trace.now) options.entry) o.text) }
    ensures few { OnOk result (IfSome (H.told shelf.old) (λ t. (count : ℕ) →
        FilesPublishMore (said_with (online_job trace.now) options.entry) count t → ⊥)) }
    ensures sent { (wires.new.items ≡ wires.old.items) ⊎
        Serves (Sends W.runs wires.old.items wires.new.items) (online_job trace.now) (H.told shelf.old)
        (said_with (online_job trace.now) options.entry) }
    ensures unsent { IfErr result (λ status. (MayHaveSent status → ⊥) → wires.new.items ≡ wires.old.items) }
    ensures read_out { IfPastFiles result (OfBoth (H.told shelf.old) (H.told shelf.new)
        (ReadsOut (online_job trace.now) (said_with (online_job trace.now) options.entry))) }
    ensures good { IfPastFiles result (IfSome (H.told shelf.old) (HasGoodFiles (online_job trace.now)
        (said_with (online_job trace.now) options.entry))) }
    ensures in_turn { IfErr result (λ status. OfBoth (H.told shelf.old) (H.told shelf.new)
        (FilesInTurn (said_with (online_job trace.now) options.entry) status)) }
    ensures keeps { KeepsFiles (H.told shelf.old) (H.told shelf.new) }
    ensures counts { CountsFault (H.faults shelf.old) (H.faults shelf.new) result }
    ensures cause { IfErr result (λ status.
        HasFilesCause (H.faults shelf.old) (H.faults shelf.new) (H.told shelf.old) (H.told shelf.new)
        (said_with (online_job trace.now) options.entry) status
        ⊎ (IsWireCause (λ port. Serves (Stops W.faults W.runs wires.old.items wires.new.items port)
        (online_job trace.now) (H.told shelf.old) (said_with (online_job trace.now) options.entry)) status
        ⊎ IsEpochsCause (λ count. IfSome (H.told shelf.old) (FilesPublishMore
        (said_with (online_job trace.now) options.entry) count)) status)) }
{
    let input = read_input(alloc, trace, options.weights, options.unit, shelf)?;
    let ran = serve_run(rt, alloc, &input, options, wires);
    drop(input);
    match ran {
        Ok(text) => Ok(Outcome {
            text,
            status: Status::Ok,
        }),
        Err(fault) => Err(status_of(fault)),
    }
}

/// The text of the online run of the input, whose units were sent. Of the options those of slots, epochs and agents are
/// used.
fn serve_run<'a, R: Threads + Wait + Sync, W: Wire + Send>(
    rt: &R,
    alloc: Global,
    input: &Input,
    options: Options<'a>,
    wires: &mut Vec<W>,
) -> Result<Text, OnlineFault>
    requires table { IsTable input.now.table }
    requires count { length input.now.weights ≡ length input.now.table.ids }
    requires least { All (λ w. 1 ≤ w) input.now.weights }
    requires weights { All (λ w. w ≤ MAX_WEIGHT) input.now.weights }
    requires wires { MAX_PORTS < length wires.old.items }
    ensures text { IfOk result (λ text.
        (told : TellsOnline input.now.table input.now.weights options.entry.slot_ms options.entry.epoch text) ×
        SendsRun W.runs wires.old.items wires.new.items input.now.table told.online) }
    ensures sent { SendsSoFar W.runs wires.old.items wires.new.items input.now.table input.now.weights
        options.entry.slot_ms options.entry.epoch }
    ensures fault { (port : ℕ) → result ≡ Err (WireFault port) →
        FailsAt W.faults wires.old.items wires.new.items port input.now.table }
    ensures stops { (port : ℕ) → result ≡ Err (WireFault port) →
        StopsShort W.runs wires.old.items wires.new.items port input.now.table input.now.weights
        options.entry.slot_ms options.entry.epoch }
    ensures too_many { (count : ℕ) → result ≡ Err (TooMany count) →
        PublishesMore input.now.table input.now.weights options.entry.slot_ms options.entry.epoch count }
{
    served_online(
        alloc,
        rt,
        &input.table,
        input.weights.as_slice(),
        options.slot_ms,
        options.epoch,
        options.agents as u32,
        wires,
    )
}

/// The status of a fault of an online run.
fn status_of(fault: OnlineFault) -> Status
    ensures { IsStatusOfOnline fault result }
{
    match fault {
        OnlineFault::WireFault { port } => Status::WireFault { port, count: 1 },
        OnlineFault::TooMany { count } => Status::Limit {
            which: Quantity::Epochs,
            count,
        },
        OnlineFault::NoMemory => Status::NoMemory,
    }
}

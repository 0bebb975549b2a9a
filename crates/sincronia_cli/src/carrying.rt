//! What a job comes to: the text to be written, or why there is none.
ghost use Rattle.std.specs.Prelude.{◌≡◌, ◌≢◌, ◌≤◌, ◌<◌, ◌^◌, ◌⊎◌, ℕ, [], All, Err, IfErr, IfOk, IfSome, List, OnOk, drop, length, map, take};
ghost use Rattle.coflow_units.specs.declared.limits.TheConstants.{MAX_CLIENTS, MAX_PORTS};
ghost use Rattle.coflow_units.specs.declared.quantity.Quantity.TheVariants.{Epochs};
ghost use Rattle.command_words.specs.Jobs.Job.{live_job, make_job, record_job, replay_job};
ghost use Rattle.command_words.specs.Words.{said_by};
ghost use Rattle.rankers.specs.FactsTold.{FactsTold};
ghost use Rattle.hall_plan.specs.Sent.{SendsAll};
ghost use Rattle.sincronia_cli.specs.Causes.{HasCauseOf};
ghost use Rattle.sincronia_cli.specs.Command.{AsksBench};
ghost use Rattle.command_files.specs.GoodFiles.{HasGoodFiles};
ghost use Rattle.command_files.specs.Ends.{CountsFault, IfPastFiles};
ghost use Rattle.command_jobs.specs.Compare.{IsFactsOfFiles};
ghost use Rattle.command_jobs.specs.Publishing.{PublishesFew};
ghost use Rattle.command_jobs.specs.Record.{LacksPolicy};
ghost use Rattle.sincronia_cli.specs.Outcome.{IsOutcome};
ghost use Rattle.command_jobs.specs.Serving.{MayHaveSent, Sends, Serves, Stops};
ghost use Rattle.command_files.specs.Shelves.{KeepsFiles, OfBoth, ReadsOut};
ghost use Rattle.command_files.specs.Turns.{FilesInTurn};

use command_files::{Outcome, Status};
use command_jobs::{
    audit_journal, check_report, compare_rankers, list_classes, make_workload, plan_trace,
    record_policy, replay_rankers, run_clients, run_online, serve_order,
};
use command_words::{Job, Words};
use live_rounds::Gate;
use outside::{Shelf, Wire};
use rankers::Ranker;
use std::alloc::Global;
use std::sync::Wait;
use std::thread::Threads;

/// Does what a job asks for: the text to be written, with the status that the job ends with. Nothing is written yet.
///
/// There is a wire for each ingress port that a trace may have, and a gate for each number that a client of a script
/// may have. The bench has fewer than 2^32 rankers.
///
/// The error is the status of why there is nothing to write: what is wrong first with the files, in the order in which
/// they are read; a call to the shelf that failed, by which its count of faults rose; the wire that did not accept a
/// unit; too many publishings of an online run or of a replay; a policy that no ranker of the bench has, where no file
/// was looked at; or that no memory was to be had.
pub fn carry_out<'a, R: Threads + Wait + Sync, H: Shelf, W: Wire + Send, G: Gate + Send>(
    rt: &R,
    alloc: Global,
    words: Words<'a>,
    shelf: &mut H,
    wires: &mut Vec<W>,
    gates: &mut Vec<G>,
    bench: &mut Vec<Box<dyn Ranker>>,
) -> Result<Outcome, Status>
    requires few { length bench.old.items < 2 ^ 32 }
    requires wires { MAX_PORTS < length wires.old.items }
    requires gates { MAX_CLIENTS ≤ length gates.old.items }
    ensures outcome { IfOk result (λ o. IsOutcome (SendsAll W.runs wires.old.items wires.new.items)
        (H.told shelf.old) (said_by words.entry) (map (λ b. meaning b) bench.old.items) o.status o.text) }
    ensures few { OnOk result (IfSome (H.told shelf.old)
        (PublishesFew (map (λ b. meaning b) bench.old.items) (said_by words.entry).job (said_by words.entry))) }
    ensures empty { OnOk result (AsksBench (said_by words.entry).job → bench.new.items ≡ []) }
    ensures left { (reached : ℕ) × (bench.new.items ≡ drop reached bench.old.items) ×
        (((trace : List ℕ) → (said_by words.entry).job ≡ replay_job trace → ⊥) →
        ((trace policy : List ℕ) → (said_by words.entry).job ≡ record_job trace policy → ⊥) →
        All (λ b. (facts : FactsTold) × IsFactsOfFiles (H.told shelf.old) (said_by words.entry) facts ×
        answered b facts) (take reached bench.old.items)) }
    ensures same_bench { IfErr result (λ status. status ≢ Status.NoMemory →
        ((count : ℕ) → status ≢ Status.Limit Epochs count) → bench.new.items ≡ bench.old.items) }
    ensures others_bench { (AsksBench (said_by words.entry).job → ⊥) → bench.new.items ≡ bench.old.items }
    ensures gates { ((trace script : List ℕ) → (said_by words.entry).job ≡ live_job trace script → ⊥) →
        gates.new.items ≡ gates.old.items }
    ensures sent { (wires.new.items ≡ wires.old.items) ⊎ Serves (Sends W.runs wires.old.items wires.new.items)
        (said_by words.entry).job (H.told shelf.old) (said_by words.entry) }
    ensures unsent { IfErr result (λ status. (MayHaveSent status → ⊥) → wires.new.items ≡ wires.old.items) }
    ensures read_out { IfPastFiles result (OfBoth (H.told shelf.old) (H.told shelf.new)
        (ReadsOut (said_by words.entry).job (said_by words.entry))) }
    ensures good { IfPastFiles result (IfSome (H.told shelf.old)
        (HasGoodFiles (said_by words.entry).job (said_by words.entry))) }
    ensures in_turn { IfErr result (λ status. OfBoth (H.told shelf.old) (H.told shelf.new)
        (FilesInTurn (said_by words.entry) status)) }
    ensures cause { IfErr result
        (HasCauseOf (Stops W.faults W.runs wires.old.items wires.new.items) (map (λ b. meaning b) bench.old.items)
        (H.faults shelf.old) (H.faults shelf.new) (H.told shelf.old) (H.told shelf.new) (said_by words.entry)) }
    ensures keeps { KeepsFiles (H.told shelf.old) (H.told shelf.new) }
    ensures counts { CountsFault (H.faults shelf.old) (H.faults shelf.new) result }
    ensures lacks_policy { LacksPolicy (map (λ b. meaning b) bench.old.items) (said_by words.entry).job →
        result ≡ Err Status.UnknownPolicy }
    ensures unread { result ≡ Err Status.UnknownPolicy →
        (H.told shelf.new ≡ H.told shelf.old) × (H.faults shelf.new ≡ H.faults shelf.old) }
    ensures untouched { (seed : ℕ) → (said_by words.entry).job ≡ make_job seed →
        (H.told shelf.new ≡ H.told shelf.old) × (H.faults shelf.new ≡ H.faults shelf.old) }
{
    match words.job {
        Job::Plan { trace } => plan_trace(rt, alloc, trace, words.options, shelf, wires),
        Job::Check { trace, report } => check_report(alloc, trace, report, words.options, shelf),
        Job::Make { seed } => make_workload(rt, alloc, seed, words.options, wires),
        Job::Compare { trace } => compare_rankers(alloc, trace, words.options, shelf, bench),
        Job::Classes { trace } => list_classes(alloc, trace, words.options, shelf),
        Job::Audit { trace, journal } => audit_journal(alloc, trace, journal, words.options, shelf),
        Job::Online { trace } => run_online(rt, alloc, trace, words.options, shelf, wires),
        Job::Live { trace, script } => run_clients(
            rt,
            alloc,
            trace,
            script,
            words.options,
            shelf,
            wires,
            gates,
        ),
        Job::Serve { trace, order } => serve_order(alloc, trace, order, words.options, shelf),
        Job::Replay { trace } => replay_rankers(alloc, trace, words.options, shelf, bench),
        Job::Record { trace, policy } => {
            record_policy(alloc, trace, policy, words.options, shelf, bench)
        }
    }
}

//! The program's job, from the words to the written text.
ghost use Rattle.std.specs.Prelude.{◌≡◌, ◌≢◌, ◌≤◌, ◌<◌, ◌^◌, ◌⊎◌, ℕ, [], All, Err, IfSome, IsSomeAnd, List, None, drop, length, map, take};
ghost use Rattle.coflow_units.specs.declared.limits.TheConstants.{MAX_CLIENTS, MAX_PORTS};
ghost use Rattle.coflow_units.specs.declared.quantity.Quantity.{Quantity};
ghost use Rattle.coflow_units.specs.declared.quantity.Quantity.TheVariants.{Epochs};
ghost use Rattle.command_words.specs.Jobs.{order_name, report_name, script_name};
ghost use Rattle.command_words.specs.Jobs.Job.{audit_job, check_job, classes_job, compare_job, live_job, make_job, online_job, plan_job, record_job, replay_job, serve_job};
ghost use Rattle.command_words.specs.Line.{texts};
ghost use Rattle.command_words.specs.Words.{IsWords, Said};
ghost use Rattle.orders.specs.declared.fault.OrderFault.{OrderFault};
ghost use Rattle.outside.specs.Rose.{Rose, RoseOnce};
ghost use Rattle.rankers.specs.FactsTold.{FactsTold};
ghost use Rattle.trace_reader.specs.declared.fault.TraceFault.{TraceFault};
ghost use Rattle.weights.specs.declared.fault.WeightsFault.{WeightsFault};
ghost use Rattle.hall_plan.specs.Sent.{SendsAll};
ghost use Rattle.command_files.specs.Causes.{FileFailed, FilesBadOrder, FilesBadScript, FilesTraceFault, FilesWeightsFault, IsGiven};
ghost use Rattle.command_files.specs.JobCauses.{FilesReportFault};
ghost use Rattle.command_files.specs.Limits.{MayLimit};
ghost use Rattle.sincronia_cli.specs.Command.{AsksBench, IsCommand, IsOfFiles};
ghost use Rattle.sincronia_cli.specs.Complete.{AreGood, EndsWell};
ghost use Rattle.command_files.specs.GoodFiles.{HasGoodFiles};
ghost use Rattle.command_files.specs.Ends.{IsStill, IsPastFiles, IsReadFault, IsWriteFault};
ghost use Rattle.command_files.specs.FileCauses.{ShelfFailed};
ghost use Rattle.sincronia_cli.specs.FirstCause.{EndsBy, IsFirstCause, IsInterrupted};
ghost use Rattle.sincronia_cli.specs.Outcome.{HasText, WritesBeginning, WritesNoBy};
ghost use Rattle.command_jobs.specs.Serving.{AreStill, MayHaveSent, SendsOnly, WireFailed};
ghost use Rattle.command_jobs.specs.Publishing.{CommandLimit, PublishesFew};
ghost use Rattle.command_jobs.specs.Classes.{WritesClasses};
ghost use Rattle.command_jobs.specs.Compare.{IsFactsOfFiles, WritesComparison};
ghost use Rattle.command_jobs.specs.Live.{WritesLive};
ghost use Rattle.command_jobs.specs.Make.{WritesMade};
ghost use Rattle.command_jobs.specs.Online.{WritesOnline};
ghost use Rattle.command_jobs.specs.Ordered.{WritesServed};
ghost use Rattle.command_jobs.specs.Plan.{WritesPlan};
ghost use Rattle.command_jobs.specs.Record.{HasPolicy, LacksPolicy, WritesRecord};
ghost use Rattle.command_jobs.specs.Replay.{WritesReplay};
ghost use Rattle.command_jobs.specs.Audit.{WritesSound};
ghost use Rattle.command_jobs.specs.Check.{WritesYes};
ghost use Rattle.command_files.specs.Shelves.{KeepsFiles, OfBoth, ReadsOut};
ghost use Rattle.command_files.specs.OrderCauses.{IsOrderForm};
ghost use Rattle.command_files.specs.TraceCauses.{IsTraceForm};
ghost use Rattle.command_files.specs.Turns.{FilesInTurn};
ghost use Rattle.command_files.specs.WeightsCauses.{IsWeightsForm};

use crate::carrying::carry_out;
use command_files::{Outcome, Status};
use command_words::{WordsFault, read_words};
use live_rounds::Gate;
use online_check::laws::yes_bounds_released_schedules;
use outside::{Shelf, Sink, Wire};
use rankers::Ranker;
use std::alloc::Global;
use std::sync::Wait;
use std::thread::Threads;

/// Does what the words ask for, and writes one text to the sink. The commands, their texts and the exit codes stand in
/// docs/FORMATS.md. A plan is that of the order by bottleneck, select, scale, iterate (Sincronia: Agarwal,
/// Rajakrishnan, Narayan, Agarwal, Shmoys and Vahdat, SIGCOMM 2018).
///
/// The words begin with the program's name, and files lie on the shelf by name. There is a wire for each ingress port
/// that a trace may have, 1025 of them: `plan`, `make`, `online` and `live` send the units of their schedules there.
/// There are 64 gates, one for each client of a script, for `live` alone. The bench has fewer than 2^32 rankers;
/// `compare` and `replay` take them off and drop them one after another.
///
/// Trace, weights and one more file are read in this order, and the first fault ends the job: its status says the
/// fault, and nothing is written. A policy that no ranker of the bench has is told before a file is looked at. At `Ok`
/// and `No` the text was written whole, at `WriteFault` a beginning of it. No call that failed is tried again: the
/// count of faults of the shelf, the sink or the wire rises by one. `NoMemory` may come in place of any answer.
///
/// What is said here of bytes, of files that are looked at and of units holds where shelf, sink and wires tell them, as
/// those in memory do. The others tell their counts of faults alone.
pub fn sincronia<R: Threads + Wait + Sync, H: Shelf, K: Sink, W: Wire + Send, G: Gate + Send>(
    rt: &R,
    alloc: Global,
    words: &[String],
    shelf: &mut H,
    out: &mut K,
    wires: &mut Vec<W>,
    gates: &mut Vec<G>,
    bench: &mut Vec<Box<dyn Ranker>>,
) -> Status
    requires wires { MAX_PORTS < length wires.old.items }
    requires gates { MAX_CLIENTS ≤ length gates.old.items }
    requires bench { length bench.old.items < 2 ^ 32 }
    ensures plan { (said : Said) (trace : List ℕ) → IsCommand (plan_job trace) (texts words.now) said →
        result ≡ Status.Ok → WritesPlan (SendsAll W.runs wires.old.items wires.new.items) (H.told shelf.old) said
        (K.taken out.old) (K.taken out.new) }
    ensures yes { (said : Said) (trace report : List ℕ) → IsCommand (check_job trace report) (texts words.now) said →
        result ≡ Status.Ok → WritesYes (H.told shelf.old) said (K.taken out.old) (K.taken out.new) }
    ensures audit_yes { (said : Said) (trace journal : List ℕ) →
        IsCommand (audit_job trace journal) (texts words.now) said → result ≡ Status.Ok →
        WritesSound (H.told shelf.old) said (K.taken out.old) (K.taken out.new) }
    ensures no { result ≡ Status.No → (said : Said) × IsWords (texts words.now) said ×
        WritesNoBy (map (λ b. meaning b) bench.old.items) said.job (H.told shelf.old) said (K.taken out.old)
        (K.taken out.new) }
    ensures online { (said : Said) (trace : List ℕ) → IsCommand (online_job trace) (texts words.now) said →
        result ≡ Status.Ok → WritesOnline (SendsAll W.runs wires.old.items wires.new.items) (H.told shelf.old) said
        (K.taken out.old) (K.taken out.new) }
    ensures few { (said : Said) → IsWords (texts words.now) said → HasText result →
        IfSome (H.told shelf.old) (PublishesFew (map (λ b. meaning b) bench.old.items) said.job said) }
    ensures live { (said : Said) (trace script : List ℕ) → IsCommand (live_job trace script) (texts words.now) said →
        result ≡ Status.Ok → WritesLive (SendsAll W.runs wires.old.items wires.new.items) (H.told shelf.old) said
        (K.taken out.old) (K.taken out.new) }
    ensures gates { ((said : Said) (trace script : List ℕ) →
        IsCommand (live_job trace script) (texts words.now) said → ⊥) → gates.new.items ≡ gates.old.items }
    ensures make { (said : Said) (seed : ℕ) → IsCommand (make_job seed) (texts words.now) said → result ≡ Status.Ok →
        WritesMade (SendsAll W.runs wires.old.items wires.new.items) seed said.unit (K.taken out.old)
        (K.taken out.new) }
    ensures wires { SendsOnly W.runs wires.old.items wires.new.items (H.told shelf.old) (texts words.now) }
    ensures unsent { (MayHaveSent result → ⊥) → wires.new.items ≡ wires.old.items }
    ensures compare { (said : Said) (trace : List ℕ) → IsCommand (compare_job trace) (texts words.now) said →
        result ≡ Status.Ok → WritesComparison (H.told shelf.old) said (map (λ b. meaning b) bench.old.items)
        (K.taken out.old) (K.taken out.new) }
    ensures replay { (said : Said) (trace : List ℕ) → IsCommand (replay_job trace) (texts words.now) said →
        result ≡ Status.Ok → WritesReplay (H.told shelf.old) said (map (λ b. meaning b) bench.old.items)
        (K.taken out.old) (K.taken out.new) }
    ensures record { (said : Said) (trace policy : List ℕ) →
        IsCommand (record_job trace policy) (texts words.now) said → result ≡ Status.Ok →
        WritesRecord (H.told shelf.old) said policy (map (λ b. meaning b) bench.old.items) (K.taken out.old)
        (K.taken out.new) }
    ensures empty { (said : Said) → IsWords (texts words.now) said → AsksBench said.job → HasText result →
        bench.new.items ≡ [] }
    ensures left { (reached : ℕ) × (bench.new.items ≡ drop reached bench.old.items) ×
        (((said : Said) (trace : List ℕ) → IsCommand (replay_job trace) (texts words.now) said → ⊥) →
        ((said : Said) (trace policy : List ℕ) → IsCommand (record_job trace policy) (texts words.now) said → ⊥) →
        All (λ b. (said : Said) × IsWords (texts words.now) said × (facts : FactsTold) ×
        IsFactsOfFiles (H.told shelf.old) said facts × answered b facts) (take reached bench.old.items)) }
    ensures same_bench { (HasText result → ⊥) → result ≢ Status.NoMemory →
        ((count : ℕ) → result ≢ Status.Limit Epochs count) → bench.new.items ≡ bench.old.items }
    ensures others_bench { ((said : Said) → IsWords (texts words.now) said → AsksBench said.job → ⊥) →
        bench.new.items ≡ bench.old.items }
    ensures classes { (said : Said) (trace : List ℕ) → IsCommand (classes_job trace) (texts words.now) said →
        result ≡ Status.Ok → WritesClasses (H.told shelf.old) said (K.taken out.old) (K.taken out.new) }
    ensures serve { (said : Said) (trace order : List ℕ) → IsCommand (serve_job trace order) (texts words.now) said →
        result ≡ Status.Ok → WritesServed (H.told shelf.old) said (K.taken out.old) (K.taken out.new) }
    ensures complete { (said : Said) → IsWords (texts words.now) said →
        AreGood (map (λ b. meaning b) bench.old.items) said.job said (H.told shelf.old) →
        IsStill (H.faults shelf.old) (H.faults shelf.new) →
        IsStill (K.faults out.old) (K.faults out.new) → AreStill W.faults wires.old.items wires.new.items →
        EndsWell said.job result ⊎ (result ≡ Status.NoMemory) }
    ensures first { (said : Said) (cause : Status) → IsOfFiles (texts words.now) said →
        HasPolicy (map (λ b. meaning b) bench.old.items) said.job →
        IsSomeAnd (H.told shelf.old) (λ t. IsFirstCause (map (λ b. meaning b) bench.old.items) said t cause) →
        EndsBy said.job cause result ⊎ IsInterrupted result }
    ensures good { IsPastFiles result → (said : Said) × IsWords (texts words.now) said ×
        IfSome (H.told shelf.old) (HasGoodFiles said.job said) }
    ensures read_out { (said : Said) → IsWords (texts words.now) said → IsPastFiles result →
        OfBoth (H.told shelf.old) (H.told shelf.new) (ReadsOut said.job said) }
    ensures in_turn { (said : Said) → IsWords (texts words.now) said →
        OfBoth (H.told shelf.old) (H.told shelf.new) (FilesInTurn said result) }
    ensures usage { result ≡ Status.Usage → (said : Said) → IsWords (texts words.now) said → ⊥ }
    ensures unknown_policy { result ≡ Status.UnknownPolicy → (said : Said) × IsWords (texts words.now) said ×
        LacksPolicy (map (λ b. meaning b) bench.old.items) said.job }
    ensures lacks_policy { (said : Said) → IsWords (texts words.now) said →
        LacksPolicy (map (λ b. meaning b) bench.old.items) said.job →
        (result ≡ Status.UnknownPolicy) ⊎ (result ≡ Status.NoMemory) }
    ensures unread { result ≡ Status.UnknownPolicy →
        (H.told shelf.new ≡ H.told shelf.old) × (H.faults shelf.new ≡ H.faults shelf.old) }
    ensures words { result ≢ Status.Usage → result ≢ Status.NoMemory → (said : Said) × IsWords (texts words.now) said }
    ensures bad_trace { (fault : TraceFault) → result ≡ Status.BadTrace fault →
        (said : Said) × IsOfFiles (texts words.now) said × IsTraceForm fault ×
        IfSome (H.told shelf.old) (FilesTraceFault said fault) }
    ensures bad_weights { (fault : WeightsFault) → result ≡ Status.BadWeights fault →
        (said : Said) × IsOfFiles (texts words.now) said × IsWeightsForm fault ×
        IfSome (H.told shelf.old) (FilesWeightsFault said fault) }
    ensures bad_report { (line : ℕ) → result ≡ Status.BadReport line →
        (said : Said) × IsWords (texts words.now) said × IsGiven (report_name said.job) ×
        (order_name said.job ≡ None) × IfSome (H.told shelf.old) (FilesReportFault said line) }
    ensures bad_script { (line field : ℕ) → result ≡ Status.BadScript line field →
        (said : Said) × IsWords (texts words.now) said × IsGiven (script_name said.job) ×
        IfSome (H.told shelf.old) (FilesBadScript said line field) }
    ensures bad_order { (fault : OrderFault) → result ≡ Status.BadOrder fault →
        (said : Said) × IsWords (texts words.now) said × IsGiven (order_name said.job) × IsOrderForm fault ×
        IfSome (H.told shelf.old) (FilesBadOrder said fault) }
    ensures limit { (which : Quantity) (count : ℕ) → result ≡ Status.Limit which count →
        (said : Said) × IsOfFiles (texts words.now) said × MayLimit said.job which ×
        IfSome (H.told shelf.old) (CommandLimit (map (λ b. meaning b) bench.old.items) said which count) }
    ensures read { (count : ℕ) → result ≡ Status.ReadFault count → (said : Said) × IsOfFiles (texts words.now) said ×
        ShelfFailed (H.faults shelf.old) (H.faults shelf.new) (H.told shelf.old) (H.told shelf.new) (FileFailed said)
        count }
    ensures write { (count : ℕ) → result ≡ Status.WriteFault count →
        (count ≡ 1) × Rose (K.faults out.old) (K.faults out.new) }
    ensures beginning { (count : ℕ) → result ≡ Status.WriteFault count →
        (said : Said) × IsWords (texts words.now) said ×
        WritesBeginning (SendsAll W.runs wires.old.items wires.new.items) (H.told shelf.old) said
        (map (λ b. meaning b) bench.old.items) (K.taken out.old) (K.taken out.new) }
    ensures wire { (port count : ℕ) → result ≡ Status.WireFault port count →
        WireFailed W.faults W.runs wires.old.items wires.new.items (H.told shelf.old) (texts words.now) port count }
    ensures still_shelf { (IsReadFault result → ⊥) → H.faults shelf.new ≡ H.faults shelf.old }
    ensures once_shelf { IsReadFault result → RoseOnce (H.faults shelf.old) (H.faults shelf.new) }
    ensures still_sink { (IsWriteFault result → ⊥) → K.faults out.new ≡ K.faults out.old }
    ensures once_sink { IsWriteFault result → RoseOnce (K.faults out.old) (K.faults out.new) }
    ensures keeps { KeepsFiles (H.told shelf.old) (H.told shelf.new) }
    ensures untouched { (said : Said) (seed : ℕ) → IsCommand (make_job seed) (texts words.now) said →
        (H.told shelf.new ≡ H.told shelf.old) × (H.faults shelf.new ≡ H.faults shelf.old) }
    ensures unwritten { (HasText result → ⊥) → K.taken out.new ≡ K.taken out.old }
{
    let words = match read_words(alloc, words) {
        Ok(words) => words,
        Err(WordsFault::Usage) => return Status::Usage,
        Err(WordsFault::NoMemory) => return Status::NoMemory,
    };
    let outcome = match carry_out(rt, alloc, words, shelf, wires, gates, bench) {
        Ok(outcome) => outcome,
        Err(status) => return status,
    };
    let Outcome { text, status } = outcome;
    let Ok(writer) = text.writer(alloc) else {
        return Status::NoMemory;
    };
    let Ok(()) = writer.write_to(out) else {
        return Status::WriteFault { count: 1 };
    };
    // what a yes on an online run says of every schedule
    yes_bounds_released_schedules();
    status
}

//! What is printed of a closed hall, which scripts may be carried out, and that there are words for each of their runs.
ghost use Rattle.coflow_units.specs.Schedule.{IsRuns};
ghost use Rattle.coflow_units.specs.declared.fabric.Flow.{Flow};
ghost use Rattle.coflow_units.specs.declared.limits.TheConstants.{MAX_CLIENTS, MAX_LIVE_UNITS};
ghost use Rattle.journal.specs.Closed.{schedule_of};
ghost use Rattle.journal.specs.Journal.{version_of};
ghost use Rattle.journal.specs.declared.command.Entry.{Entry};
ghost use Rattle.journal.specs.declared.opening.Opening.{Opening};
ghost use Rattle.live_model.specs.Clause.{IsLiveRun, CarriesOut, Course};
ghost use Rattle.live_model.specs.Printed.{run_of, told_entry, told_order, told_pulls};
ghost use Rattle.live_model.specs.Script.{limit_of};
ghost use Rattle.live_model.specs.Sent.{Wires};
ghost use Rattle.live_rounds.specs.declared.answer.PullDone.{PullDone};
ghost use Rattle.live_runs.specs.Read.{IsRead};
ghost use Rattle.live_serving.specs.Ends.{IsCarriedOut, MayBeAsked, pull_line};
ghost use Rattle.live_serving.specs.Followed.{pulls_for};
ghost use Rattle.live_text.specs.declared.value.Live.{Live};
ghost use Rattle.std.specs.List.{range_with_len};
ghost use Rattle.std.specs.Option.{IsSome};
ghost use Rattle.std.specs.Prelude.{◌≡◌, ◌^◌, ◌≤◌, ℕ, List, Some, flat_map, map, sum_by, All};
ghost use Rattle.workload.specs.declared.script.Script.{Script};

/// Where some course carries out a script with a journal and wires, a value that tells of the journal what `live_value`
/// does, with the lines of the pulls as `pull_lines` gives them, is that of a run of `live`.
pub fn closed_halls_are_told()
    ensures { (o : Opening) (script : Script) (most : ℕ) (journal : List Entry) (wires : Wires) (pulls : List PullDone)
        (live : Live) → IsCarriedOut o script most journal wires pulls →
        map (told_entry o) journal ≡ map Some live.entries →
        live.orders ≡ map (told_order o journal) (range_with_len 1 (version_of journal)) →
        live.pulls ≡ flat_map (λ client. map (pull_line o.table.ids) (pulls_for client pulls))
        (range_with_len 1 script.clients) → IsRuns (schedule_of o journal) (map run_of live.runs) →
        IsLiveRun o script most live journal wires }
{}

/// A script that was read over the coflows of a table may be carried out: each line is of one of its clients, who are
/// at most 64, and its command is in range. Where the table has no more units than clients may share live, the limit of
/// the journal is at most 2^23.
pub fn scripts_may_be_asked()
    ensures asked { (o : Opening) (script : Script) → IsRead o.table.ids script → MayBeAsked o script }
    ensures clients { (ids : List ℕ) (script : Script) → IsRead ids script → script.clients ≤ MAX_CLIENTS }
    ensures limit { (o : Opening) (script : Script) → IsRead o.table.ids script →
        sum_by (λ (x : Flow). x.units) o.table.flows ≤ MAX_LIVE_UNITS → limit_of o script ≤ 2 ^ 23 }
{}

/// Each entry of a journal that carries out a script has words: it is a client's, which asks what a line of the script
/// asks, or one of the driver, who opens and closes runs.
pub fn runs_have_words()
    ensures { (o : Opening) (script : Script) (most : ℕ) (journal : List Entry) (wires : Wires) (course : Course) →
        CarriesOut o script most journal wires course → All (λ (e : Entry). IsSome (told_entry o e)) journal }
{}

/// A value that tells of such a journal what `live_value` does, and the pulls of the course by client and then by line,
/// is that of a run of `live`.
pub fn values_tell_runs()
    ensures { (o : Opening) (script : Script) (most : ℕ) (journal : List Entry) (wires : Wires) (course : Course)
        (live : Live) → CarriesOut o script most journal wires course →
        map (told_entry o) journal ≡ map Some live.entries →
        live.orders ≡ map (told_order o journal) (range_with_len 1 (version_of journal)) →
        live.pulls ≡ flat_map (λ client. told_pulls o journal (course.deeds client)) (range_with_len 1 script.clients) →
        IsRuns (schedule_of o journal) (map run_of live.runs) → IsLiveRun o script most live journal wires }
{}

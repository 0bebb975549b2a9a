//! What a yes says of a printed journal, that no reason holds of a right one, and that a replay makes its schedule.
ghost use Rattle.coflow_units.specs.Flows.{coflow_of, units_of};
ghost use Rattle.coflow_units.specs.Patient.{IsServedOrWaits};
ghost use Rattle.coflow_units.specs.Schedule.{IsClear, slots_of, times};
ghost use Rattle.flow_table.specs.Table.{TableFacts};
ghost use Rattle.journal.specs.Closed.{closed_runs, IsOpenedIn, schedule_of};
ghost use Rattle.journal.specs.Counts.{run_line};
ghost use Rattle.journal.specs.Fold.{state_of};
ghost use Rattle.journal.specs.Journal.{line_of};
ghost use Rattle.journal.specs.State.{owed, Run};
ghost use Rattle.journal.specs.declared.command.Entry.{Entry};
ghost use Rattle.journal.specs.declared.opening.Opening.{Opening};
ghost use Rattle.journal_audit.specs.Reasons.{HasReasonFor, IsAudit};
ghost use Rattle.journal_audit.specs.Replay.{IsReplay};
ghost use Rattle.journal_audit.specs.Sound.{IsSoundLive};
ghost use Rattle.journal_audit.specs.Stated.{journal_in, opening_for};
ghost use Rattle.journal_audit.specs.declared.verdict.Audit.{Audit};
ghost use Rattle.journal_audit.specs.declared.verdict.AuditReason.{AuditReason};
ghost use Rattle.live_text.specs.Live.{IsLive};
ghost use Rattle.live_text.specs.declared.value.Live.{Live};
ghost use Rattle.schedule_model.specs.RunList.{slots_in};
ghost use Rattle.std.specs.Prelude.{◌≡◌, ◌≤◌, ◌<◌, ℕ, All, Contains, List, length, map, []};

/// No reason holds of a printed journal that is right.
pub fn right_journals_have_no_reason()
    ensures { (t : TableFacts) (weights : List ℕ) (l : Live) (reason : AuditReason) → IsSoundLive t weights l →
        HasReasonFor (opening_for t weights l) (journal_in t l) l reason → ⊥ }
{}

/// A printed journal has one verdict at most.
pub fn verdict_is_one()
    ensures { (t : TableFacts) (weights : List ℕ) (l : Live) (a b : Audit) → IsAudit t weights l a →
        IsAudit t weights l b → a ≡ b }
{}

/// What a yes says of the runs of a printed journal, whoever made it. Its slots are those of the closed runs, one after
/// another, each with all flows that its run grants. Each of these runs was opened by an entry of the journal. In the
/// slots of such a run, a flow that owed units when it was opened, and whose coflow stood in the line there, is
/// granted, or shares a port with a granted flow of a coflow no later in the line. The flows of a slot ascend, so none
/// stands twice in it, and no two of them share a port. No flow stands in more slots than it has units.
pub fn yes_keeps_the_line()
    ensures slots { (t : TableFacts) (weights : List ℕ) (l : Live) → IsLive l → IsSoundLive t weights l →
        slots_in l.runs ≡ slots_of (map run_line (closed_runs (opening_for t weights l) (journal_in t l))) }
    ensures opened { (t : TableFacts) (weights : List ℕ) (l : Live) → IsSoundLive t weights l →
        All (IsOpenedIn (opening_for t weights l) (journal_in t l))
        (closed_runs (opening_for t weights l) (journal_in t l)) }
    ensures patient { (t : TableFacts) (weights : List ℕ) (l : Live) (r : Run) (f : ℕ) →
        (x : IsOpenedIn (opening_for t weights l) (journal_in t l) r) → f < length t.flows →
        Contains (line_of (opening_for t weights l) x.before) (coflow_of t.flows f) →
        0 < owed (opening_for t weights l) (state_of (opening_for t weights l) x.before) f →
        IsServedOrWaits t.flows (line_of (opening_for t weights l) x.before) r.granted f }
    ensures once { (t : TableFacts) (weights : List ℕ) (l : Live) → IsLive l → IsSoundLive t weights l →
        All (IsClear t.flows) (slots_in l.runs) }
    ensures within { (t : TableFacts) (weights : List ℕ) (l : Live) (f : ℕ) → IsLive l → IsSoundLive t weights l →
        times (slots_in l.runs) f ≤ units_of t.flows f }
{}

/// Before the first entry there are no slots. After any entries the slots are the schedule of the journal.
pub fn replays_make_the_schedule()
    ensures first { (o : Opening) → IsReplay o [] [] }
    ensures schedule { (o : Opening) (journal : List Entry) (slots : List (List ℕ)) → IsReplay o journal slots →
        slots ≡ schedule_of o journal }
{}

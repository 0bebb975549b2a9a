//! Laws of the journals of the one-thread master. Each says something of every opening and every legal journal.
ghost use Rattle.std.specs.Prelude.{◌≡◌, ℕ, ◌+◌, ◌-◌, ◌<◌, ◌≤◌, ◌⊎◌, false, true, min, All, Contains, List, [], ◌∷◌, ◌++◌, None, replicate};
ghost use Rattle.coflow_units.specs.Flows.{ingress_of};
ghost use Rattle.coflow_units.specs.Grants.{IsRunLength};
ghost use Rattle.coflow_units.specs.Served.{IsServedSoFar};
ghost use Rattle.journal.specs.declared.command.Command.{Command};
ghost use Rattle.journal.specs.declared.command.Command.TheVariants.{Close, Open, Short};
ghost use Rattle.journal.specs.declared.command.Entry.{Entry};
ghost use Rattle.journal.specs.declared.command.Reply.TheVariants.{Closed, Noted};
ghost use Rattle.journal.specs.declared.command.Reply.{Reply};
ghost use Rattle.journal.specs.declared.opening.Opening.{Opening};
ghost use Rattle.journal.specs.State.{owed, slot_end};
ghost use Rattle.journal.specs.Line.{line};
ghost use Rattle.journal.specs.Runs.{granted};
ghost use Rattle.journal.specs.Fold.{state_of};
ghost use Rattle.journal.specs.Answer.{reply_of};
ghost use Rattle.journal.specs.Journal.{entry, is_full, IsLegal, line_of};
ghost use Rattle.journal.specs.Sound.{InRange};
ghost use Rattle.journal.specs.Closed.{schedule_of};
ghost use Rattle.journal.specs.Driven.{closing, Drive, driven, driven_slots, GoesOnByRun, is_other, IsDriven, IsNotedAsDue, IsTakenNote, IsRunning, IsSentWhole, IsShortOf, IsUnderWay, IsWithinRun, NoneNotedFrom, noting, opened_in, opening, driver_entries, sent_from, times_noted};
ghost use Rattle.journal.specs.Entries.{IsOpenReply};
ghost use Rattle.journal.specs.Counts.{endings, is_ending};

/// A run is under way from its opening on, through entries of others and notes of the driver, each of a port past those
/// that were noted. What was sent may be told before the first note, and a Close makes it a driven run.
pub fn runs_go_on_under_way()
    ensures opens { (o : Opening) (before : List Entry) (d : Drive) → d.between ≡ [] →
        All (λ e. is_other e ≡ true) d.earlier → IsUnderWay o before (opened_in before d ++ opening d ∷ []) d }
    ensures others { (o : Opening) (before now more : List Entry) (d : Drive) → IsUnderWay o before now d →
        All (λ e. is_other e ≡ true) more →
        IsUnderWay o before (now ++ more) (record d { between = d.between ++ more }) }
    ensures sent { (o : Opening) (before now : List Entry) (d : Drive) (sent : ℕ → ℕ) → IsUnderWay o before now d →
        All (λ e. is_other e ≡ true) d.between → IsUnderWay o before now (record d { sent = sent }) }
    ensures notes { (o : Opening) (before now : List Entry) (d : Drive) (f : ℕ) (reply : Reply) →
        IsUnderWay o before now d → Contains (driven o before d) f → sent_from o.table.flows d f < d.slots →
        NoneNotedFrom d.between (ingress_of o.table.flows f) →
        IsUnderWay o before (now ++ noting o.table.flows d f reply ∷ [])
        (record d { between = d.between ++ noting o.table.flows d f reply ∷ [] }) }
    ensures closes { (o : Opening) (before now : List Entry) (d : Drive) (reply : Reply) → IsUnderWay o before now d →
        IsWithinRun o before d → IsNotedAsDue o before d →
        IsDriven o before (now ++ entry 0 Close reply ∷ []) (record d { answer = reply }) }
{}

/// While a run is under way it is open with its grants, and all else is as before.
pub fn runs_under_way_are_open()
    ensures { (o : Opening) (before now : List Entry) (d : Drive) → IsLegal o now → IsUnderWay o before now d →
        IsRunning o before now d }
{}

/// What the driver is answered in a legal journal: where no run is open, its Open finds nothing left, comes too late,
/// or opens a run; and while its run is under way, its notes of granted ports and its Close are taken.
pub fn drivers_are_answered()
    ensures open { (o : Opening) (before more : List Entry) (who most : ℕ) (reply : Reply) →
        IsLegal o (before ++ entry who (Open most) reply ∷ more) → (state_of o before).run ≡ None →
        IsOpenReply o (state_of o before) most reply }
    ensures note { (o : Opening) (before now : List Entry) (d : Drive) (who f units : ℕ) (reply : Reply) →
        IsLegal o (now ++ entry who (Short (ingress_of o.table.flows f) units) reply ∷ []) →
        IsUnderWay o before now d → Contains (driven o before d) f → reply ≡ Noted (min units d.slots) }
    ensures taken { (o : Opening) (before now front rest : List Entry) (d : Drive) (e : Entry) → IsLegal o now →
        IsUnderWay o before now d → d.between ≡ front ++ e ∷ rest →
        (x : IsShortOf o.table.flows (driven o before d) d e) →
        e.reply ≡ Noted (sent_from o.table.flows d x.0) }
    ensures close { (o : Opening) (before now : List Entry) (d : Drive) (who : ℕ) (reply : Reply) →
        IsLegal o (now ++ entry who Close reply ∷ []) → IsUnderWay o before now d → reply ≡ Closed d.first }
{}

/// While a run is under way no more notes were made than there are ports, so that a further note and the Close have
/// room.
pub fn drivers_have_room()
    ensures few { (o : Opening) (before now : List Entry) (d : Drive) → InRange o now → IsUnderWay o before now d →
        endings d.between ≤ o.table.ports }
    ensures room { (o : Opening) (before now : List Entry) (d : Drive) (k : Command) → IsLegal o now →
        InRange o now → IsUnderWay o before now d → is_ending k ≡ true → is_full (reply_of o now k) ≡ false }
{}

/// The driver's own entries of a driven run are, in order, its opening, its notes and its closing, and where the run
/// was sent whole the opening and the closing alone. In a legal journal each note is taken, and the closing tells the
/// first slot of the run.
pub fn driven_runs_have_own_entries()
    ensures entries { (o : Opening) (before after : List Entry) (d : Drive) → IsDriven o before after d →
        driver_entries after
        ≡ driver_entries before ++ opening d ∷ [] ++ driver_entries d.between ++ closing d ∷ [] }
    ensures notes { (o : Opening) (before after : List Entry) (d : Drive) → IsLegal o after →
        IsDriven o before after d →
        All (IsTakenNote o.table.flows (driven o before d) d) (driver_entries d.between) }
    ensures whole { (o : Opening) (before after : List Entry) (d : Drive) → IsDriven o before after d →
        IsSentWhole o before d → driver_entries d.between ≡ [] }
    ensures close { (o : Opening) (before after : List Entry) (d : Drive) → IsLegal o after →
        IsDriven o before after d → closing d ≡ entry 0 Close (Closed d.first) }
{}

/// Notes, and Short and Close entries, are counted piece by piece, and entries of others are none.
pub fn notes_are_counted()
    ensures noted { (xs ys : List Entry) (port : ℕ) →
        times_noted (xs ++ ys) port ≡ times_noted xs port + times_noted ys port }
    ensures noted_by_others { (es : List Entry) (port : ℕ) → All (λ e. is_other e ≡ true) es → times_noted es port ≡ 0 }
    ensures endings { (xs ys : List Entry) → endings (xs ++ ys) ≡ endings xs + endings ys }
    ensures endings_by_others { (es : List Entry) → All (λ e. is_other e ≡ true) es → endings es ≡ 0 }
{}

/// A driven run adds its slots to the schedule and what it sent to the wires, whatever others do meanwhile.
pub fn driven_runs_go_on()
    ensures run { (o : Opening) (before after : List Entry) (d : Drive) → IsLegal o after → InRange o after →
        IsDriven o before after d → GoesOnByRun o before after d }
    ensures as_long { (o : Opening) (before after : List Entry) (d : Drive) → IsLegal o after →
        IsDriven o before after d →
        IsRunLength (owed o (state_of o (opened_in before d))) (driven o before d)
        (min d.most (slot_end - (state_of o (opened_in before d)).next)) d.slots }
{}

/// A driven run that was sent whole is so many equal slots of the granted flows. It had all the slots that were asked
/// for and that were left, or it ended a flow; and where the schedule serves an order so far, and the line is that
/// order, it goes on to do so.
pub fn whole_runs_serve()
    ensures slots { (o : Opening) (before : List Entry) (d : Drive) → IsSentWhole o before d →
        driven_slots o.table.flows (driven o before d) d ≡ replicate d.slots (driven o before d) }
    ensures ends { (o : Opening) (before after : List Entry) (d : Drive) → IsLegal o after → InRange o after →
        IsDriven o before after d → IsSentWhole o before d →
        (d.slots ≡ min d.most (slot_end - d.first))
        ⊎ ((f : ℕ) × Contains (driven o before d) f × (0 < owed o (state_of o before) f) ×
        (owed o (state_of o after) f ≡ 0)) }
    ensures serves { (o : Opening) (before after : List Entry) (d : Drive) → IsLegal o after → InRange o after →
        IsDriven o before after d → IsSentWhole o before d →
        IsServedSoFar o.table.flows (line_of o (opened_in before d)) (schedule_of o before) →
        IsServedSoFar o.table.flows (line_of o (opened_in before d)) (schedule_of o after) }
{}

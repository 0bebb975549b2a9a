//! Laws of the world: what each step keeps, and what holds after every list of steps.
ghost use Rattle.std.specs.Prelude.{◌≡◌, ℕ, true, false, List};
ghost use Rattle.journal.specs.declared.command.Command.{Command};
ghost use Rattle.journal.specs.declared.opening.Opening.{Opening};
ghost use Rattle.journal.specs.declared.command.Entry.{Entry};
ghost use Rattle.journal.specs.State.{IsOpening};
ghost use Rattle.journal.specs.Journal.{IsLegal};
ghost use Rattle.journal.specs.Sound.{InRange};
ghost use Rattle.journal.specs.Driven.{Drive, IsDriven};
ghost use Rattle.world_model.specs.declared.event.Event.{Event};
ghost use Rattle.world_model.specs.declared.event.Event.TheVariants.{Ask, Post, Draw, Send, Report, Settle, Note, Close};
ghost use Rattle.world_model.specs.declared.event.Happened.TheVariants.{Blocked, Busy};
ghost use Rattle.world_model.specs.World.{WorldFacts, new_world, port_at};
ghost use Rattle.world_model.specs.Guards.{can};
ghost use Rattle.world_model.specs.Steps.{IsBusy, IsSameButJournal, happened, is_full_answer, is_refused_answer, leaves, moved, world_after, world_of};
ghost use Rattle.world_model.specs.Lawful.{AreDrawnByAgents, ClosesAsSent, IsLegalWorld, IsWorld, OpensGrants, OpensPatiently, SendsInTime, SendsOnce, SendsWithin};
ghost use Rattle.world_model.specs.Played.{AreAgents, AreTaken, events_of, IsPlayed};
ghost use Rattle.world_model.specs.Rows.{Doubled, DrawnTwice, Listed, ListedMakesRun, SendsNothing, Shorts, Strangers, Turns, Unreported};

/// After every list of steps from a new world, whatever callers, agents and the driver did and in whatever order: the
/// journal is legal; no pair of a slot and a flow was sent twice; no flow was sent more units than it has; nothing was
/// sent past the open run; each closing credited to each flow what was sent for it in the run; and each opening granted
/// the grants of its line, for as long as they allow, so that a flow waits only for a coflow no later in the line.
pub fn worlds_are_lawful()
    ensures legal { (o : Opening) (agents : ℕ) (events : List Event) → IsOpening o →
        IsLegalWorld (world_of (new_world o agents) events) }
    ensures once { (o : Opening) (agents : ℕ) (events : List Event) → IsOpening o →
        SendsOnce (world_of (new_world o agents) events) }
    ensures within { (o : Opening) (agents : ℕ) (events : List Event) → IsOpening o →
        SendsWithin (world_of (new_world o agents) events) }
    ensures in_time { (o : Opening) (agents : ℕ) (events : List Event) → IsOpening o →
        SendsInTime (world_of (new_world o agents) events) }
    ensures credited { (o : Opening) (agents : ℕ) (events : List Event) → IsOpening o →
        ClosesAsSent (world_of (new_world o agents) events) }
    ensures granted { (o : Opening) (agents : ℕ) (events : List Event) → IsOpening o →
        OpensGrants (world_of (new_world o agents) events) }
    ensures patient { (o : Opening) (agents : ℕ) (events : List Event) → IsOpening o →
        OpensPatiently (world_of (new_world o agents) events) }
{}

/// A new world has what every step keeps, each step that may be taken keeps it, and so does every list of steps.
pub fn steps_keep_the_world()
    ensures first { (o : Opening) (agents : ℕ) → IsOpening o → IsWorld (new_world o agents) }
    ensures ask { (w : WorldFacts) (who : ℕ) (k : Command) → IsWorld w → can w (Ask who k) ≡ true →
        IsWorld (moved w (Ask who k)) }
    ensures post { (w : WorldFacts) (port : ℕ) → IsWorld w → can w (Post port) ≡ true → IsWorld (moved w (Post port)) }
    ensures draw { (w : WorldFacts) (agent port : ℕ) → IsWorld w → can w (Draw agent port) ≡ true →
        IsWorld (moved w (Draw agent port)) }
    ensures send { (w : WorldFacts) (agent port units : ℕ) → IsWorld w → can w (Send agent port units) ≡ true →
        IsWorld (moved w (Send agent port units)) }
    ensures report { (w : WorldFacts) (agent port : ℕ) → IsWorld w → can w (Report agent port) ≡ true →
        IsWorld (moved w (Report agent port)) }
    ensures settle { (w : WorldFacts) (port : ℕ) → IsWorld w → can w (Settle port) ≡ true →
        IsWorld (moved w (Settle port)) }
    ensures note { (w : WorldFacts) (port : ℕ) → IsWorld w → can w (Note port) ≡ true → IsWorld (moved w (Note port)) }
    ensures close { (w : WorldFacts) → IsWorld w → can w Close ≡ true → IsWorld (moved w Close) }
    ensures list { (w : WorldFacts) (events : List Event) → IsWorld w → IsWorld (world_of w events) }
{}

/// What holds of a world that has what every step keeps.
pub fn kept_worlds_are_lawful()
    ensures once { (w : WorldFacts) → IsWorld w → SendsOnce w }
    ensures within { (w : WorldFacts) → IsWorld w → SendsWithin w }
    ensures in_time { (w : WorldFacts) → IsWorld w → SendsInTime w }
    ensures credited { (w : WorldFacts) → IsWorld w → ClosesAsSent w }
    ensures granted { (w : WorldFacts) → IsWorld w → OpensGrants w }
    ensures patient { (w : WorldFacts) → OpensPatiently w }
{}

/// A run of the driver among entries of others is played by its steps, whichever agent of the world draws at each port:
/// each of them is taken, and they make the journal of that run, with the commands of others between, and send what the
/// run says.
pub fn runs_are_played()
    ensures taken { (w : WorldFacts) (agent_at : ℕ → ℕ) (after : List Entry) (d : Drive) → IsWorld w →
        AreAgents w agent_at → IsLegal w.opening after → InRange w.opening after →
        IsDriven w.opening w.journal after d → AreTaken w (events_of w agent_at d) }
    ensures played { (w : WorldFacts) (agent_at : ℕ → ℕ) (after : List Entry) (d : Drive) → IsWorld w →
        AreAgents w agent_at → IsLegal w.opening after → InRange w.opening after →
        IsDriven w.opening w.journal after d → IsPlayed w (world_of w (events_of w agent_at d)) after d }
{}

/// Who drew or reported a post is one of the agents, after every list of steps from a new world, and no step changes
/// that.
pub fn drawers_are_agents()
    ensures all { (o : Opening) (agents : ℕ) (events : List Event) → IsOpening o →
        AreDrawnByAgents (world_of (new_world o agents) events) }
    ensures step { (w : WorldFacts) (e : Event) → IsWorld w → AreDrawnByAgents w → AreDrawnByAgents (world_after w e) }
{}

/// What steps leave as it was: no step changes the opening, a step that is blocked, or answered Full or Busy, changes
/// nothing, one that the master refuses changes nothing but the journal, and a step at one port leaves the others. Busy
/// comes exactly where a post is to be settled that an agent has drawn and not reported.
pub fn steps_leave_the_rest()
    ensures opening { (w : WorldFacts) (e : Event) → (world_after w e).opening ≡ w.opening }
    ensures blocked { (w : WorldFacts) (e : Event) → can w e ≡ false →
        (happened w e ≡ Blocked) × (world_after w e ≡ w) }
    ensures full { (w : WorldFacts) (e : Event) → is_full_answer (happened w e) ≡ true → world_after w e ≡ w }
    ensures refused { (w : WorldFacts) (e : Event) → is_refused_answer (happened w e) ≡ true →
        IsSameButJournal w (world_after w e) }
    ensures busy { (w : WorldFacts) (e : Event) (word : ℕ) → happened w e ≡ Busy word →
        IsBusy w e word × (world_after w e ≡ w) }
    ensures drawn { (w : WorldFacts) (e : Event) (word : ℕ) → IsBusy w e word → happened w e ≡ Busy word }
    ensures others { (w : WorldFacts) (e : Event) (q : ℕ) → leaves e q ≡ true →
        port_at (world_after w e) q ≡ port_at w q }
{}

/// The definitions give what was worked out by hand.
pub fn rows_hold()
    ensures turns { Turns }
    ensures shorts { Shorts }
    ensures strangers { Strangers }
    ensures sends_nothing { SendsNothing }
    ensures listed { Listed }
    ensures listed_makes_run { ListedMakesRun }
    ensures unreported { Unreported }
    ensures drawn_twice { DrawnTwice }
    ensures doubled { Doubled }
{}

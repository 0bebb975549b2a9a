//! Laws of rounds, of the sessions that carry them out, and of the driver beside them.
ghost use Rattle.client_session.specs.Closes.{HasEnded};
ghost use Rattle.client_session.specs.Drivers.{GrownByOthers};
ghost use Rattle.client_session.specs.Levels.{IsRaised};
ghost use Rattle.client_session.specs.Models.{SessionModel};
ghost use Rattle.client_session.specs.Own.{own_entries};
ghost use Rattle.journal.specs.Driven.{Drive, IsDriven, is_other, IsSentWhole, opened_in};
ghost use Rattle.journal.specs.Journal.{entry, IsLegal};
ghost use Rattle.journal.specs.declared.command.Command.TheVariants.{Open};
ghost use Rattle.journal.specs.declared.command.Entry.{Entry};
ghost use Rattle.journal.specs.declared.command.Reply.TheVariants.{NothingLeft};
ghost use Rattle.journal.specs.declared.opening.Opening.{Opening};
ghost use Rattle.live_model.specs.Levels.{AreSessions, IsBetween, IsSession, IsSpellBetween, Levels, spell_driven, spell_for_nothing};
ghost use Rattle.live_model.specs.Rounds.{Spell};
ghost use Rattle.live_model.specs.Script.{lines_by};
ghost use Rattle.live_rounds.specs.Acts.{Act, entries_in, HasActed};
ghost use Rattle.live_rounds.specs.Asking.{AddFew, LackCalls, MetFull};
ghost use Rattle.live_rounds.specs.Clients.{AreClients};
ghost use Rattle.live_rounds.specs.Drivers.{AreOpenings};
ghost use Rattle.live_rounds.specs.Rounds.{IsCutShort, IsRoundDone};
ghost use Rattle.live_rounds.specs.Told.{acts_of, deeds_of, IsNew, IsRoundBetween, LiesBetween, lines_of};
ghost use Rattle.live_rounds.specs.declared.answer.PullDone.{PullDone};
ghost use Rattle.live_rounds.specs.declared.answer.RoundStop.{RoundStop};
ghost use Rattle.live_rounds.specs.declared.answer.RoundStop.TheVariants.{Full, Spent};
ghost use Rattle.std.specs.Prelude.{◌≡◌, ℕ, List, ◌+◌, ◌≤◌, ◌++◌, true, [], ◌∷◌, All, Contains, length};
ghost use Rattle.workload.specs.declared.script.Script.{Script};
ghost use Rattle.workload.specs.declared.script.ScriptLine.{ScriptLine};

/// A round adds at most one entry for each line, whether it is done or cut short. It is cut short only where a session
/// met a journal that has as many entries as it may have, or had fewer calls left than its client has lines.
pub fn rounds_ask_little()
    ensures done { (o : Opening) (lines : List ScriptLine) (olds news : List SessionModel) (pulls : List PullDone) →
        IsRoundDone o lines olds news pulls → AddFew lines 1 olds news }
    ensures cut { (o : Opening) (lines : List ScriptLine) (olds news : List SessionModel) (stop : RoundStop) →
        IsCutShort o lines olds news stop → AddFew lines 1 olds news }
    ensures full { (o : Opening) (lines : List ScriptLine) (olds news : List SessionModel) (entries : ℕ) →
        IsCutShort o lines olds news (Full entries) → MetFull o news }
    ensures spent { (o : Opening) (lines : List ScriptLine) (olds news : List SessionModel) →
        IsCutShort o lines olds news Spent → LackCalls lines 1 olds }
{}

/// How sessions go on: a levelling carries out no line, and rounds follow each other.
pub fn sessions_go_on()
    ensures level { (old new : SessionModel) → IsRaised old new → HasActed old new [] }
    ensures rounds { (first mid last : SessionModel) (acts more : List Act) → HasActed first mid acts →
        HasActed mid last more → HasActed first last (acts ++ more) }
{}

/// A session that was new, and that carried out the lines of its client in all rounds, did so as a course asks, once
/// the hall is closed.
pub fn sessions_carry_out_scripts()
    ensures { (o : Opening) (journal : List Entry) (script : Script) (first last : SessionModel)
        (told : List (ℕ × Act)) →
        IsNew first → HasActed first last (acts_of told) → HasEnded o journal last →
        lines_of told ≡ lines_by script last.number →
        IsSession script journal last.number last.own (deeds_of told) }
{}

/// What the lines of a round came to lies between what was levelled before and behind the round.
pub fn rounds_lie_between_levels()
    ensures { (levels : Levels) (round : ℕ) (old new : SessionModel) (acts : List Act) → HasActed old new acts →
        IsRoundBetween levels round old new → All (LiesBetween levels round) acts }
{}

/// Lines that lie between the levels of their rounds do so as a course asks, once the hall is closed.
pub fn lines_keep_levels()
    ensures { (o : Opening) (journal : List Entry) (levels : Levels) (last : SessionModel) (told : List (ℕ × Act)) →
        HasEnded o journal last → All (Contains last.own) (entries_in (acts_of told)) →
        All (λ (x : ℕ × Act). LiesBetween levels x.0 x.1) told → All (IsBetween journal levels) (deeds_of told) }
{}

/// The clients of a script, whose lines lie between the levels of their rounds, did the script as a course asks.
pub fn clients_do_their_scripts()
    ensures sessions { (o : Opening) (journal : List Entry) (script : Script) (levels : Levels) (clients : ℕ)
        (told : ℕ → List (ℕ × Act)) → AreClients o journal script levels clients told →
        AreSessions script journal (λ k. own_entries k journal) (λ k. deeds_of (told k)) }
    ensures levels { (o : Opening) (journal : List Entry) (script : Script) (levels : Levels) (clients : ℕ)
        (told : ℕ → List (ℕ × Act)) → AreClients o journal script levels clients told →
        (k : ℕ) → All (IsBetween journal levels) (deeds_of (told k)) }
{}

/// The driver's entries are openings, one after the other: none at first, one more by a run that was sent whole and by
/// an opening that finds nothing left, and none by entries of others.
pub fn drivers_open_runs()
    ensures first { (most : ℕ) → AreOpenings most [] [] }
    ensures run { (o : Opening) (round most : ℕ) (before after : List Entry) (d : Drive) (spells : List Spell) →
        IsLegal o after → IsDriven o before after d → IsSentWhole o before d → d.most ≡ most →
        AreOpenings most before spells → AreOpenings most after (spells ++ spell_driven round before d ∷ []) }
    ensures nothing { (round most : ℕ) (before earlier : List Entry) (spells : List Spell) →
        All (λ (e : Entry). is_other e ≡ true) earlier → AreOpenings most before spells →
        AreOpenings most (before ++ earlier ++ entry 0 (Open most) NothingLeft ∷ [])
        (spells ++ spell_for_nothing round before earlier ∷ []) }
    ensures others { (most : ℕ) (before after : List Entry) (spells : List Spell) → GrownByOthers before after →
        AreOpenings most before spells → AreOpenings most after spells }
{}

/// An opening that stands behind the level before its round, and ends no later than the level behind it, lies between
/// them.
pub fn openings_lie_between_levels()
    ensures run { (o : Opening) (levels : Levels) (round : ℕ) (before after : List Entry) (d : Drive) →
        IsDriven o before after d → levels.position round ≤ length (opened_in before d) →
        length after ≤ levels.position (round + 1) → IsSpellBetween levels (spell_driven round before d) }
    ensures nothing { (levels : Levels) (round : ℕ) (before earlier : List Entry) →
        levels.position round ≤ length (before ++ earlier) →
        length (before ++ earlier) + 1 ≤ levels.position (round + 1) →
        IsSpellBetween levels (spell_for_nothing round before earlier) }
{}

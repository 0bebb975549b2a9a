//! The definitions can be met, each can fail, and what they say of entries, levels and courses.
ghost use Rattle.client_session.specs.Own.{own_entries, OwnEntry};
ghost use Rattle.journal.specs.Closed.{schedule_of, wire_of};
ghost use Rattle.journal.specs.Driven.{Drive, IsDriven, is_other};
ghost use Rattle.journal.specs.Journal.{IsLegal, entry};
ghost use Rattle.journal.specs.Sound.{InRange};
ghost use Rattle.journal.specs.declared.command.Command.TheVariants.{Open, Pull};
ghost use Rattle.journal.specs.declared.command.Entry.{Entry};
ghost use Rattle.journal.specs.declared.command.Reply.TheVariants.{NothingLeft};
ghost use Rattle.journal.specs.declared.opening.Opening.{Opening};
ghost use Rattle.live_model.specs.Deeds.{asked_by, asked_in, Deed, DoesScript, ForLaterRounds, HasEntry, IsPull, Deeds, entries_by, HasNewest, IsTwoAbove};
ghost use Rattle.live_model.specs.Levels.{AreKept, AreLevelled, AreSessions, HaveEntries, Levels, RisesOver, spell_driven, spell_for_nothing, version_before};
ghost use Rattle.live_model.specs.Pulls.{IsAnswered, IsMadeBefore, IsMadeFor, TellVersions};
ghost use Rattle.live_model.specs.RefusedRows.{MissingPull, NearLine, NearRound, OtherLimit, OtherRank, StrangeEntry, UnknownVersion, WrongAnswer};
ghost use Rattle.live_model.specs.Rounds.{Driving, KeepRounds, spell_entries};
ghost use Rattle.live_model.specs.Rows.{Alone, Both, CrossedRounds, EarlyOpening, FallingVersion, ForeseenVersion, Hidden, LateOpening, MissingEntry, NearPull, NothingTwice, SentTwice, StalePull, UnmadeVersion, UnopenedRound, WrongMost, WrongOrder, WrongReply, WrongRuns};
ghost use Rattle.live_model.specs.Sent.{AreGranted, IsSentOnce, Wires};
ghost use Rattle.std.specs.Prelude.{◌≡◌, ℕ, ◌≤◌, true, All, List, [], ◌∷◌, ◌++◌};
ghost use Rattle.workload.specs.declared.script.Script.{Script};

/// What a legal journal gives by itself: its opened runs have their grants, wires that hold what its closed runs sent
/// hold each pair of its schedule once, and each pull is answered by the newest version after its entry.
pub fn journals_give()
    ensures granted { (o : Opening) (journal : List Entry) → IsLegal o journal → AreGranted o journal }
    ensures sent { (o : Opening) (journal : List Entry) (wires : Wires) →
        IsLegal o journal → InRange o journal → ((port : ℕ) → wires port ≡ wire_of o journal port) →
        IsSentOnce o.table.flows (schedule_of o journal) wires }
    ensures pulls { (o : Opening) (before more : List Entry) (e : Entry) (coflow : ℕ) →
        IsLegal o (before ++ e ∷ more) → e.command ≡ Pull coflow → IsAnswered o before e coflow }
{}

/// What was worked out by hand for small scripts meets the definitions.
pub fn rows_hold()
    ensures alone { Alone }
    ensures both { Both }
    ensures hidden { Hidden }
{}

/// A run is refused where a pair is sent twice on a wire, where a command has no entry, and where an entry stands
/// before one of an earlier round.
pub fn damaged_runs_are_refused()
    ensures sent_twice { SentTwice → ⊥ }
    ensures missing_entry { MissingEntry → ⊥ }
    ensures crossed_rounds { CrossedRounds → ⊥ }
{}

/// A run is refused where a pull is told a version that is older than an entry of an earlier round or of its client, a
/// version that a later round made or that was made only after the client's later line, and where a pull has an entry
/// although only one version was made.
pub fn wrong_versions_are_refused()
    ensures stale_pull { StalePull → ⊥ }
    ensures falling_version { FallingVersion → ⊥ }
    ensures unmade_version { UnmadeVersion → ⊥ }
    ensures foreseen_version { ForeseenVersion → ⊥ }
    ensures near_pull { NearPull → ⊥ }
{}

/// A run is refused where a round that has a run of slots beside it has no opening, where its opening stands before an
/// entry of an earlier round or behind one of a later round, where two openings are answered that nothing is left, and
/// where openings are not of as many slots as were asked for.
pub fn wrong_openings_are_refused()
    ensures unopened_round { UnopenedRound → ⊥ }
    ensures early_opening { EarlyOpening → ⊥ }
    ensures late_opening { LateOpening → ⊥ }
    ensures nothing_twice { NothingTwice → ⊥ }
    ensures wrong_most { WrongMost → ⊥ }
{}

/// A text is refused where an entry is printed with the reply of another, where an order is not that of its version,
/// and where the runs are not those of the schedule.
pub fn wrong_texts_are_refused()
    ensures wrong_reply { WrongReply → ⊥ }
    ensures wrong_order { WrongOrder → ⊥ }
    ensures wrong_runs { WrongRuns → ⊥ }
{}

/// The entries that a session keeps are those of its number in the journal, with the newest versions after them; and
/// where they are those of its deeds, the client asked by these deeds, which have these versions.
pub fn own_entries_tell()
    ensures have { (journal : List Entry) (client : ℕ) → HaveEntries journal client (own_entries client journal) }
    ensures rise { (journal : List Entry) (client : ℕ) → All (RisesOver journal) (own_entries client journal) }
    ensures asked { (journal : List Entry) (client : ℕ) (own : List OwnEntry) (deeds : List Deed) →
        HaveEntries journal client own → AreKept own deeds → asked_by journal client ≡ asked_in deeds }
    ensures versions { (journal : List Entry) (client : ℕ) (own : List OwnEntry) (deeds : List Deed) →
        HaveEntries journal client own → AreKept own deeds → All (HasNewest journal) deeds }
{}

/// Where each round lies between what `level` left before and after it, the entries of a round stand before those of
/// later rounds, the openings of the driver in between, and pulls are told versions that fit the entries of other
/// rounds.
pub fn levels_tell()
    ensures rounds { (journal : List Entry) (levels : Levels) (deeds : Deeds) (driving : Driving) →
        AreLevelled journal levels deeds driving → KeepRounds deeds driving }
    ensures moved { (journal : List Entry) (levels : Levels) (deeds : Deeds) (driving : Driving) →
        AreLevelled journal levels deeds driving → ForLaterRounds deeds (λ a b. HasEntry a → IsTwoAbove a b) }
    ensures seen { (journal : List Entry) (levels : Levels) (deeds : Deeds) (driving : Driving) →
        AreLevelled journal levels deeds driving →
        ForLaterRounds deeds (λ a b. HasEntry a → IsPull b → a.version ≤ b.version) }
    ensures made { (o : Opening) (journal : List Entry) (levels : Levels) (deeds : Deeds) (driving : Driving) →
        IsLegal o journal → AreLevelled journal levels deeds driving → ForLaterRounds deeds (IsMadeFor journal) }
    ensures made_before { (o : Opening) (journal : List Entry) (v p : ℕ) →
        IsLegal o journal → 1 ≤ v → v ≤ version_before journal p → IsMadeBefore journal v p }
{}

/// What the sessions and `level` keep while the rounds go on is translated, once the journal is closed, into the
/// definitions of a course.
pub fn courses_are_translated()
    ensures script { (script : Script) (journal : List Entry) (own : ℕ → List OwnEntry) (levels : Levels)
        (deeds : Deeds) (driving : Driving) → AreSessions script journal own deeds →
        AreLevelled journal levels deeds driving → DoesScript script journal deeds }
    ensures versions { (o : Opening) (script : Script) (journal : List Entry) (own : ℕ → List OwnEntry)
        (levels : Levels) (deeds : Deeds) (driving : Driving) → IsLegal o journal →
        AreSessions script journal own deeds → AreLevelled journal levels deeds driving →
        TellVersions journal deeds }
{}

/// The driver's entries go on by one spell where a run of the driver takes place in which no port fell short, and where
/// an opening is answered that nothing is left.
pub fn drivers_go_on()
    ensures driven { (o : Opening) (round : ℕ) (before after : List Entry) (d : Drive) →
        IsDriven o before after d → All (λ (e : Entry). is_other e ≡ true) d.between →
        entries_by after 0 ≡ entries_by before 0 ++ spell_entries d.most (spell_driven round before d) }
    ensures nothing { (round most : ℕ) (before earlier : List Entry) → All (λ (e : Entry). is_other e ≡ true) earlier →
        entries_by (before ++ earlier ++ entry 0 (Open most) NothingLeft ∷ []) 0
        ≡ entries_by before 0 ++ spell_entries most (spell_for_nothing round before earlier) }
{}

/// A run is refused where the journal has another limit than the script gives it, where a publishing is answered with
/// another version than the master's, although the text tells the same, and where an entry is that of no line.
pub fn wrong_journals_are_refused()
    ensures other_limit { OtherLimit → ⊥ }
    ensures wrong_answer { WrongAnswer → ⊥ }
    ensures strange_entry { StrangeEntry → ⊥ }
{}

/// A text is refused where a pull is printed with another rank than its coflow has in its version, or with a version
/// that was never made, and where a pull has no line.
pub fn wrong_pull_lines_are_refused()
    ensures other_rank { OtherRank → ⊥ }
    ensures unknown_version { UnknownVersion → ⊥ }
    ensures missing_pull { MissingPull → ⊥ }
{}

/// A run is refused where a pull has an entry although one version alone was made since an earlier line of its client,
/// or since an entry of an earlier round.
pub fn near_pulls_are_refused()
    ensures near_line { NearLine → ⊥ }
    ensures near_round { NearRound → ⊥ }
{}

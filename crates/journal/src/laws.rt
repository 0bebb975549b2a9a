//! Laws of the definitions. Each says something of every opening and every journal.
ghost use Rattle.std.specs.Prelude.{◌≡◌, ◌↔◌, ℕ, ◌+◌, ◌-◌, min, ◌<◌, ◌≤◌, nat_le, true, false, Some, All, AllPairs, List, [], ◌∷◌, ◌++◌, length, map, not, slice_index};
ghost use Rattle.std.specs.List.{slice_index_or, filter};
ghost use Rattle.coflow_units.specs.declared.fabric.Flow.{Flow};
ghost use Rattle.coflow_units.specs.Flows.{Instance, IsInstance, coflow_of, units_of};
ghost use Rattle.coflow_units.specs.Certificate.{order_of, Entry as PlaceEntry};
ghost use Rattle.coflow_units.specs.Ordering.{IsOrdering};
ghost use Rattle.coflow_units.specs.Grants.{IsGrants, IsRunLength};
ghost use Rattle.journal.specs.declared.command.Command.{Command};
ghost use Rattle.journal.specs.declared.command.Entry.{Entry};
ghost use Rattle.journal.specs.declared.opening.Opening.{Opening};
ghost use Rattle.journal.specs.declared.command.Reply.TheVariants.{NothingLeft, Opened, Rank, Unranked, Version, Weighed};
ghost use Rattle.journal.specs.declared.command.Command.TheVariants.{Open, Pull, Reweigh};
ghost use Rattle.journal.specs.Chosen.{the_grants, the_ordering};
ghost use Rattle.journal.specs.State.{has, is_present, IsOpening, owed, Run, slot_end, State, what_is_left};
ghost use Rattle.journal.specs.Line.{version, newest, line, owing};
ghost use Rattle.journal.specs.Runs.{credit, granted, slots_for};
ghost use Rattle.journal.specs.Fold.{after, state_of};
ghost use Rattle.journal.specs.Answer.{reply_of, room};
ghost use Rattle.journal.specs.Journal.{IsLegal, asked, gives_weight, is_full, is_refusal, journal_after, left_at, line_of, order_in, rank_of, version_of, entry};
ghost use Rattle.journal.specs.Sound.{InRange, SoundState};
ghost use Rattle.journal.specs.Rows.{Doors, SkipsBack, LateJoiner, ByJoining, ByOrder, NewestNote, LeftWork, ClosesInFull, Fills, LastSlot, Ranks, Runs, Weights};
ghost use Rattle.journal.specs.Entries.{TellsEntry};
ghost use Rattle.journal.specs.Counts.{endings};
ghost use Rattle.journal.specs.Versions.{IsMade, times_made};
ghost use Rattle.flow_table.specs.Table.{instance_of};

/// The ordering certificate and the grants that the master takes are those of their definitions, and no others.
pub fn choices_are_the_ones()
    ensures ordering { (i : Instance) → IsInstance i → IsOrdering i (the_ordering i) }
    ensures only_ordering { (i : Instance) (entries : List PlaceEntry) → IsInstance i → IsOrdering i entries →
        entries ≡ the_ordering i }
    ensures grants { (flows : List Flow) (line : List ℕ) (left : ℕ → ℕ) →
        IsGrants flows line left (the_grants flows line left) }
    ensures only_grants { (flows : List Flow) (line : List ℕ) (left : ℕ → ℕ) (granted : List ℕ) →
        IsGrants flows line left granted → granted ≡ the_grants flows line left }
{}

/// What is left is an instance at every point.
pub fn left_is_instance()
    ensures { (o : Opening) (s : State) → IsOpening o → IsInstance (what_is_left o s) }
{}

/// The state after one more entry, or after a command, is the state before it, changed by the reply.
pub fn state_goes_on()
    ensures entry { (o : Opening) (journal : List Entry) (e : Entry) →
        state_of o (journal ++ e ∷ []) ≡ after o (state_of o journal) e.command e.reply }
    ensures command { (o : Opening) (journal : List Entry) (who : ℕ) (k : Command) →
        state_of o (journal_after o journal who k) ≡ after o (state_of o journal) k (reply_of o journal k) }
{}

/// A refused command changes nothing but the journal, and where the journal is full not even that.
pub fn refusals_change_nothing()
    ensures refused { (o : Opening) (journal : List Entry) (who : ℕ) (k : Command) →
        is_refusal (reply_of o journal k) ≡ true → state_of o (journal_after o journal who k) ≡ state_of o journal }
    ensures full { (o : Opening) (journal : List Entry) (who : ℕ) (k : Command) →
        is_full (reply_of o journal k) ≡ true → journal_after o journal who k ≡ journal }
{}

/// Further entries leave the order and the ranks of each version as they were.
pub fn versions_stay()
    ensures count { (before more : List Entry) → version_of (before ++ more) ≡ version_of before + version_of more }
    ensures newest { (o : Opening) (journal : List Entry) → version (state_of o journal) ≡ version_of journal }
    ensures order { (o : Opening) (journal more : List Entry) (v : ℕ) → v ≤ version_of journal →
        order_in o (journal ++ more) v ≡ order_in o journal v }
    ensures rank { (o : Opening) (journal more : List Entry) (v coflow : ℕ) → v ≤ version_of journal →
        rank_of o (journal ++ more) v coflow ≡ rank_of o journal v coflow }
{}

/// The version that a publishing makes is the next one, and its order is that of the ordering certificate of what was
/// left there.
pub fn publishing_makes_order()
    ensures number { (o : Opening) (journal : List Entry) (k : Command) (v : ℕ) → reply_of o journal k ≡ Version v →
        v ≡ version_of journal + 1 }
    ensures order { (o : Opening) (journal more : List Entry) (e : Entry) (v : ℕ) → IsLegal o (journal ++ e ∷ more) →
        e.reply ≡ Version v → order_in o (journal ++ e ∷ more) v ≡ order_of (the_ordering (left_at o journal)) }
    ensures certificate { (o : Opening) (journal more : List Entry) (e : Entry) (v : ℕ) (entries : List PlaceEntry) →
        IsOpening o → IsLegal o (journal ++ e ∷ more) → e.reply ≡ Version v →
        IsOrdering (left_at o journal) entries → order_in o (journal ++ e ∷ more) v ≡ order_of entries }
{}

/// Legal journals: their beginnings, how they go on, and how long they are.
pub fn legal_journals()
    ensures beginning { (o : Opening) (journal more : List Entry) → IsLegal o (journal ++ more) → IsLegal o journal }
    ensures entry { (o : Opening) (journal : List Entry) (e : Entry) → IsLegal o journal →
        e.reply ≡ reply_of o journal e.command → is_full e.reply ≡ false → IsLegal o (journal ++ e ∷ []) }
    ensures command { (o : Opening) (journal : List Entry) (who : ℕ) (k : Command) → IsLegal o journal →
        IsLegal o (journal_after o journal who k) }
    ensures there { (o : Opening) (journal more : List Entry) (e : Entry) → IsLegal o (journal ++ e ∷ more) →
        (e.reply ≡ reply_of o journal e.command) × (is_full e.reply ≡ false) }
    ensures full { (o : Opening) (journal : List Entry) (k : Command) →
        is_full (reply_of o journal k) ≡ nat_le (room o k) (length journal) }
    ensures fits { (o : Opening) (journal : List Entry) → IsLegal o journal →
        length journal ≤ o.limit + o.table.ports + 1 }
{}

/// The callers and their commands determine the replies.
pub fn replies_are_determined()
    ensures { (o : Opening) (a b : List Entry) → IsLegal o a → IsLegal o b → map asked a ≡ map asked b → a ≡ b }
{}

/// In a legal journal whose commands are in range no flow is sent more units than it has, and an open run is in time
/// and within what its flows owe.
pub fn legal_is_sound()
    ensures { (o : Opening) (journal : List Entry) → IsLegal o journal → InRange o journal →
        SoundState o (state_of o journal) }
{}

/// The coflows of the line are those that are present.
pub fn line_is_present()
    ensures { (o : Opening) (journal : List Entry) → IsOpening o → (c : ℕ) →
        has (line_of o journal) c ≡ is_present (state_of o journal) c }
{}

/// The weight of a coflow is the last one that a `Reweigh` gave it, and before the first it is the opening's.
pub fn weight_is_the_last()
    ensures given { (o : Opening) (before more : List Entry) (e : Entry) (coflow weight old : ℕ) →
        e.command ≡ Reweigh coflow weight → e.reply ≡ Weighed old → All (λ x. gives_weight x coflow ≡ false) more →
        (state_of o (before ++ e ∷ more)).weight coflow ≡ weight }
    ensures opening { (o : Opening) (journal : List Entry) (coflow : ℕ) →
        All (λ x. gives_weight x coflow ≡ false) journal →
        (state_of o journal).weight coflow ≡ slice_index_or o.weights coflow 0 }
{}

/// A pull tells the newest version, and the place in it or that there is none; and an open finds nothing left only
/// where no present coflow owes a unit.
pub fn replies_tell()
    ensures pull { (o : Opening) (journal : List Entry) (c v r : ℕ) → reply_of o journal (Pull c) ≡ Rank v r →
        (v ≡ version_of journal) × (r ≡ rank_of o journal v c) }
    ensures unranked { (o : Opening) (journal : List Entry) (c v : ℕ) → reply_of o journal (Pull c) ≡ Unranked v →
        (v ≡ version_of journal) × (rank_of o journal v c ≡ 0) }
    ensures nothing_left { (o : Opening) (journal : List Entry) (most f : ℕ) → IsOpening o →
        reply_of o journal (Open most) ≡ NothingLeft → f < length o.table.flows →
        is_present (state_of o journal) (coflow_of o.table.flows f) ≡ true →
        owed o (state_of o journal) f ≡ 0 }
{}

/// No flow of the line owes a unit exactly where each flow of a present coflow owes none.
pub fn nothing_is_owing()
    ensures { (o : Opening) (journal : List Entry) → IsOpening o →
        (length (owing o (state_of o journal)) ≡ 0) ↔ ((f : ℕ) → f < length o.table.flows →
        is_present (state_of o journal) (coflow_of o.table.flows f) ≡ true → owed o (state_of o journal) f ≡ 0) }
{}

/// The grants of a run that is opened are those of the line and of what is owed at its entry, and its length is the
/// longest that they and the last slot allow.
pub fn opened_runs_have_grants()
    ensures run { (o : Opening) (journal : List Entry) (e : Entry) (slot slots count : ℕ) →
        e.reply ≡ Opened slot slots count →
        ((state_of o (journal ++ e ∷ [])).run ≡
        Some (record { first = slot; slots = slots; granted = granted o (state_of o journal); notes = [] }))
        × IsGrants o.table.flows (line_of o journal) (owed o (state_of o journal)) (granted o (state_of o journal)) }
    ensures length { (o : Opening) (s : State) (most : ℕ) →
        IsRunLength (owed o s) (granted o s) (min most (slot_end - s.next)) (slots_for o s most) }
{}

/// What each entry of a legal journal tells of the state that it answered in.
pub fn entries_tell()
    ensures { (o : Opening) (before more : List Entry) (e : Entry) → IsLegal o (before ++ e ∷ more) →
        TellsEntry o (state_of o before) e.command e.reply }
{}

/// Only Short and Close make a journal longer than its limit: a journal that goes on from at most its limit is longer
/// than the limit by at most as many entries as ask these.
pub fn journals_have_further_room()
    ensures { (o : Opening) (before more : List Entry) → IsLegal o (before ++ more) → length before ≤ o.limit →
        length (before ++ more) ≤ o.limit + endings more }
{}

/// Each version from 1 to the newest of a journal has its entry, which was answered with it after the versions below,
/// and no other entry was answered with it. There are at most as many versions as entries.
pub fn versions_have_their_entries()
    ensures made { (o : Opening) (journal : List Entry) (v : ℕ) → IsLegal o journal → 1 ≤ v → v ≤ version_of journal →
        IsMade journal v }
    ensures once { (o : Opening) (journal : List Entry) (v : ℕ) → IsLegal o journal → 1 ≤ v → v ≤ version_of journal →
        times_made journal v ≡ 1 }
    ensures only { (o : Opening) (before more : List Entry) (e : Entry) (v : ℕ) → IsLegal o (before ++ e ∷ more) →
        e.reply ≡ Version v → (x : IsMade (before ++ e ∷ more) v) →
        (x.before ≡ before) × (x.entry ≡ e) × (x.more ≡ more) }
    ensures later { (o : Opening) (journal : List Entry) (v : ℕ) → IsLegal o journal → version_of journal < v →
        times_made journal v ≡ 0 }
    ensures few { (journal : List Entry) → version_of journal ≤ length journal }
{}

/// Where each coflow that joined and has not left has a place in the newest order, the line is that order without those
/// who left. Where all coflows are present with their opening weights and nothing was sent, what is
/// left is the instance of the table.
pub fn whole_work_is_left()
    ensures order { (s : State) → ((c : ℕ) → has s.joined c ≡ true → has s.left c ≡ false → has (newest s) c ≡ true) →
        line s ≡ filter (λ c. not (has s.left c)) (newest s) }
    ensures newest { (s : State) → ((c : ℕ) → has s.joined c ≡ true → has (newest s) c ≡ true) →
        ((c : ℕ) → has s.left c ≡ false) → line s ≡ newest s }
    ensures instance { (o : Opening) (s : State) → IsOpening o →
        ((c : ℕ) → c < length o.table.ids → is_present s c ≡ true) → ((f : ℕ) → s.sent f ≡ 0) →
        ((c : ℕ) → s.weight c ≡ slice_index o.weights c) →
        what_is_left o s ≡ instance_of o.table o.weights }
{}

/// The definitions give what was worked out by hand.
pub fn rows_hold()
    ensures ranks { Ranks }
    ensures fills { Fills }
    ensures closes_in_full { ClosesInFull }
    ensures runs { Runs }
    ensures last_slot { LastSlot }
    ensures weights { Weights }
    ensures doors { Doors }
    ensures skips_back { SkipsBack }
    ensures late_joiner { LateJoiner }
    ensures by_joining { ByJoining }
    ensures by_order { ByOrder }
    ensures newest_note { NewestNote }
    ensures left_work { LeftWork }
{}

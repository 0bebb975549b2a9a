//! Laws of the journals of the one-thread master. Each says something of every opening and every legal journal.
ghost use Rattle.std.specs.Prelude.{◌≡◌, ℕ, ◌+◌, ◌<◌, ◌≤◌, ◌==◌, ◌&&◌, ◌↔◌, false, true, not, slice_index, if◌then◌else◌, All, Contains, List, [], ◌∷◌, ◌++◌, count_by, flat_map, length, map, None, option_to_list, replicate, Some, sum_by};
ghost use Rattle.std.specs.List.{filter, slice_index_or};
ghost use Rattle.coflow_units.specs.declared.fabric.Flow.{Flow};
ghost use Rattle.coflow_units.specs.Flows.{ingress_of};
ghost use Rattle.coflow_units.specs.Schedule.{holds, IsClear, slots_of, times};
ghost use Rattle.journal.specs.declared.command.Command.TheVariants.{Close, Open, Short};
ghost use Rattle.journal.specs.declared.command.Entry.{Entry};
ghost use Rattle.journal.specs.declared.command.Reply.TheVariants.{Closed, Noted, Opened, Skipped};
ghost use Rattle.journal.specs.declared.opening.Opening.{Opening};
ghost use Rattle.journal.specs.State.{has, is_present, IsOpening, Run, State, what_is_left};
ghost use Rattle.journal.specs.Line.{line, newest};
ghost use Rattle.journal.specs.Runs.{grant_in, granted};
ghost use Rattle.journal.specs.Fold.{state_of};
ghost use Rattle.journal.specs.Journal.{entry, IsLegal};
ghost use Rattle.journal.specs.Sound.{InRange};
ghost use Rattle.journal.specs.Closed.{AreClosed, closed_by, closed_runs, IsOpenedIn, LeavesRuns, schedule_of, sent_at, slots_added, slots_in, times_on, units_on, wire_of};
ghost use Rattle.journal.specs.Driven.{driven, opening};
ghost use Rattle.journal.specs.Entries.{is_driving, is_moving};
ghost use Rattle.journal.specs.Moves.{ClosesRun, NotesRun, OpensRun, SkipsSlots};
ghost use Rattle.journal.specs.Tally.{IsTally, tallied_schedule, tallied_wire, TalliedRuns};
ghost use Rattle.journal.specs.Ends.{flows_ended, IsLongAsAsked, runs_without_end};
ghost use Rattle.journal.specs.Counts.{closings, furthest_skip, is_noted, is_noting, is_skipping, IsSlotOf, IsWhole, opening_of, openings, run_line, slots_together, units_granted, units_sent};
ghost use Rattle.journal.specs.RunRows.{CountedGrants, CountedKinds, CountedNotes, CountedRuns, DrivenApart, EndedFlows, FurthestSkips, NotedRun, NotesInOrder, OneRun, OpenRun, ServedOrder, SkippedSlots, SlotsOfARun, TalliedSlots, TwiceOnAWire, TwoPorts, WithdrawalBetween};

/// What the entries that move a run do: they open one, note units in it, close it, or let slots pass where none is
/// open.
pub fn entries_move_runs()
    ensures opened { (o : Opening) (journal : List Entry) (e : Entry) (first slots count : ℕ) →
        IsLegal o (journal ++ e ∷ []) → e.reply ≡ Opened first slots count →
        OpensRun o journal (journal ++ e ∷ [])
        (record { first = first; slots = slots; granted = granted o (state_of o journal); notes = [] }) }
    ensures noted { (o : Opening) (journal : List Entry) (e : Entry) (n : ℕ) → IsLegal o (journal ++ e ∷ []) →
        e.reply ≡ Noted n → (r : Run) × (port : ℕ) × NotesRun o journal (journal ++ e ∷ []) r port n }
    ensures closed { (o : Opening) (journal : List Entry) (e : Entry) (slot : ℕ) → IsLegal o (journal ++ e ∷ []) →
        InRange o journal → e.reply ≡ Closed slot →
        (r : Run) × (r.first ≡ slot) × ClosesRun o journal (journal ++ e ∷ []) r }
    ensures skipped { (o : Opening) (journal : List Entry) (e : Entry) (to : ℕ) → IsLegal o (journal ++ e ∷ []) →
        InRange o journal → e.reply ≡ Skipped to → SkipsSlots o journal (journal ++ e ∷ []) to }
{}

/// Of clear grants the one at an ingress is the granted flow that begins there, and there is none exactly where no
/// granted flow does.
pub fn grants_at_ingresses()
    ensures some { (flows : List Flow) (granted : List ℕ) (port f : ℕ) → IsClear flows granted →
        (grant_in flows granted port ≡ Some f) ↔ (Contains granted f × (ingress_of flows f ≡ port)) }
    ensures none { (flows : List Flow) (granted : List ℕ) (port : ℕ) →
        (grant_in flows granted port ≡ None) ↔ ((f : ℕ) → Contains granted f → ingress_of flows f ≡ port → ⊥) }
{}

/// The closed runs are in order, each is clear and credits no flow more than its slots, and what was sent of a flow is
/// what they credit to it.
pub fn runs_are_in_order()
    ensures { (o : Opening) (journal : List Entry) → IsLegal o journal → InRange o journal →
        AreClosed o.table.flows (state_of o journal).next (state_of o journal).sent (closed_runs o journal) }
{}

/// Each closed run, and the open one, was opened by an entry of the journal: it has the grants of its line and of what
/// was owed there, began with the next slot, and is as long as was asked and allowed. Each has its own entry: those
/// that open a run tell of these runs, in order, and of no others.
pub fn runs_were_opened()
    ensures closed { (o : Opening) (journal : List Entry) → IsLegal o journal →
        All (IsOpenedIn o journal) (closed_runs o journal) }
    ensures open { (o : Opening) (journal : List Entry) (r : Run) → IsLegal o journal →
        (state_of o journal).run ≡ Some r → IsOpenedIn o journal r }
    ensures opened { (o : Opening) (journal : List Entry) → IsLegal o journal →
        openings journal ≡ map opening_of (closed_runs o journal ++ option_to_list (state_of o journal).run) }
{}

/// How the closed runs, the wires and the schedule go on by an entry: a closing adds the open run, what it sent and its
/// slots, a skip adds empty slots, and nothing else adds any.
pub fn runs_go_on()
    ensures closed { (o : Opening) (journal : List Entry) (e : Entry) →
        closed_runs o (journal ++ e ∷ []) ≡ closed_runs o journal ++ closed_by e.reply (state_of o journal).run }
    ensures wire { (o : Opening) (journal : List Entry) (e : Entry) (port : ℕ) →
        wire_of o (journal ++ e ∷ []) port
        ≡ wire_of o journal port ++ flat_map (sent_at o.table.flows port) (closed_by e.reply (state_of o journal).run) }
    ensures schedule { (o : Opening) (journal : List Entry) (e : Entry) → IsLegal o (journal ++ e ∷ []) →
        InRange o journal →
        schedule_of o (journal ++ e ∷ [])
        ≡ schedule_of o journal
        ++ slots_added o.table.flows (state_of o journal).next (state_of o journal).run e.reply }
{}

/// A reply that is none of Opened, Noted, Closed and Skipped leaves the open run, the next slot, the units sent, the
/// closed runs, the schedule and the wires, and so do entries whose commands are none of Open, Short, Close and Skip.
pub fn others_leave_runs()
    ensures reply { (o : Opening) (journal : List Entry) (e : Entry) → is_moving e.reply ≡ false →
        LeavesRuns o journal (journal ++ e ∷ []) }
    ensures commands { (o : Opening) (before more : List Entry) → IsLegal o (before ++ more) →
        All (λ (e : Entry). is_driving e.command ≡ false) more → LeavesRuns o before (before ++ more) }
{}

/// No slot is passed without a skip or a run: from the furthest skip on each slot before the next one is of a closed
/// run. So the next slot lies no further past that skip than the closed runs have slots, and, where nothing was noted,
/// than units were sent.
pub fn next_slots_are_few()
    ensures passed { (o : Opening) (journal : List Entry) (slot : ℕ) → IsLegal o journal → InRange o journal →
        furthest_skip journal ≤ slot → slot < (state_of o journal).next →
        (r : Run) × Contains (closed_runs o journal) r × IsSlotOf slot r }
    ensures runs { (o : Opening) (journal : List Entry) → IsLegal o journal → InRange o journal →
        (state_of o journal).next ≤ furthest_skip journal + slots_together (closed_runs o journal) }
    ensures units { (o : Opening) (journal : List Entry) → IsLegal o journal → InRange o journal →
        All (λ (e : Entry). is_noting e.command ≡ false) journal →
        (state_of o journal).next ≤ furthest_skip journal + units_sent o journal }
{}

/// The next slot never falls.
pub fn next_never_falls()
    ensures { (o : Opening) (before more : List Entry) → IsLegal o (before ++ more) → InRange o (before ++ more) →
        (state_of o before).next ≤ (state_of o (before ++ more)).next }
{}

/// The schedule of the closed runs ends before the next slot, its slots are clear, and each flow stands in as many of
/// them as it was sent units.
pub fn schedule_tells_sent()
    ensures length { (o : Opening) (journal : List Entry) → IsLegal o journal → InRange o journal →
        length (schedule_of o journal) + 1 ≡ (state_of o journal).next }
    ensures clear { (o : Opening) (journal : List Entry) → IsLegal o journal → InRange o journal →
        All (IsClear o.table.flows) (schedule_of o journal) }
    ensures times { (o : Opening) (journal : List Entry) (f : ℕ) → IsLegal o journal → InRange o journal →
        times (schedule_of o journal) f ≡ (state_of o journal).sent f }
{}

/// A pair of a slot and a flow stands in the wire of the flow's ingress, once, exactly where it stands in the schedule,
/// and in no other wire. Slots count from 1. That wire has as
/// many units of the flow as were sent of it.
pub fn wires_tell_schedule()
    ensures pair { (o : Opening) (journal : List Entry) (port k f : ℕ) → IsLegal o journal → InRange o journal →
        times_on (wire_of o journal port) (k + 1) f
        ≡ (if (ingress_of o.table.flows f == port) && holds (slice_index_or (schedule_of o journal) k []) f then 1
        else 0) }
    ensures zero { (o : Opening) (journal : List Entry) (port f : ℕ) → IsLegal o journal → InRange o journal →
        times_on (wire_of o journal port) 0 f ≡ 0 }
    ensures units { (o : Opening) (journal : List Entry) (port f : ℕ) → IsLegal o journal → InRange o journal →
        units_on (wire_of o journal port) f
        ≡ (if ingress_of o.table.flows f == port then (state_of o journal).sent f else 0) }
{}

/// A run without notes is so many equal slots of the granted flows. So where nothing was noted and no slot was skipped
/// the schedule is the slots of the runs.
pub fn runs_without_notes_are_even()
    ensures whole { (o : Opening) (journal : List Entry) → IsLegal o journal →
        All (λ (e : Entry). is_noting e.command ≡ false) journal → All IsWhole (closed_runs o journal) }
    ensures schedule { (o : Opening) (journal : List Entry) → IsLegal o journal → InRange o journal →
        All (λ (e : Entry). (is_noting e.command ≡ false) × (is_skipping e.command ≡ false)) journal →
        schedule_of o journal ≡ slots_of (map run_line (closed_runs o journal)) }
    ensures run { (flows : List Flow) (r : Run) → r.notes ≡ [] → slots_in flows r ≡ replicate r.slots r.granted }
{}

/// Each Closed entry closes a run. No more runs are closed than units were granted by them. Where nothing was noted, no
/// more were closed than units were sent, and else no more than that and the runs in which something was noted. No more
/// units are sent than the flows have.
pub fn closings_are_few()
    ensures runs { (o : Opening) (journal : List Entry) → IsLegal o journal →
        closings journal ≡ length (closed_runs o journal) }
    ensures units { (o : Opening) (journal : List Entry) → IsLegal o journal → InRange o journal →
        All (λ (e : Entry). is_noting e.command ≡ false) journal → closings journal ≤ units_sent o journal }
    ensures granted { (o : Opening) (journal : List Entry) → IsLegal o journal → InRange o journal →
        closings journal ≤ units_granted (closed_runs o journal) }
    ensures noted { (o : Opening) (journal : List Entry) → IsLegal o journal → InRange o journal →
        closings journal ≤ units_sent o journal + count_by is_noted (closed_runs o journal) }
    ensures within { (o : Opening) (journal : List Entry) → IsLegal o journal → InRange o journal →
        units_sent o journal ≤ sum_by (λ (x : Flow). x.units) o.table.flows }
{}

/// Each closing ends a flow, or closes a run in which no flow ends: so there are no more closings than flows that owe
/// nothing and such runs. Where nothing was noted in such a run, it has all the slots that were asked for and that were
/// left.
pub fn closings_end_flows()
    ensures few { (o : Opening) (journal : List Entry) → IsLegal o journal → InRange o journal →
        closings journal ≤ flows_ended o journal + length (runs_without_end o journal) }
    ensures closed { (o : Opening) (journal : List Entry) (r : Run) → Contains (runs_without_end o journal) r →
        Contains (closed_runs o journal) r }
    ensures whole { (o : Opening) (journal : List Entry) → IsLegal o journal →
        All (λ (r : Run). r.notes ≡ [] → IsLongAsAsked o journal r) (runs_without_end o journal) }
    ensures flows { (o : Opening) (journal : List Entry) → flows_ended o journal ≤ length o.table.flows }
{}

/// The schedule of a journal is the one that a tally of its closed runs makes up to the next slot: a flow stands in so
/// many slots of each run as the run credits units to it, from the run's first slot on. And what a wire was sent is
/// what the runs of the tally sent from its port.
pub fn tallies_tell_schedules()
    ensures schedule { (o : Opening) (journal : List Entry) (x : TalliedRuns) → IsTally o journal x →
        schedule_of o journal ≡ tallied_schedule x.closed (state_of o journal).next }
    ensures wire { (o : Opening) (journal : List Entry) (x : TalliedRuns) (port : ℕ) → IsLegal o journal →
        InRange o journal → IsTally o journal x → wire_of o journal port ≡ tallied_wire x.closed port }
{}

/// The definitions give the schedules and wires that were worked out by hand: of coflows that are served in a published
/// order, of a run with a note, of slots that pass, of two runs with a withdrawal between, of a run that is still open,
/// of two ports, and of driven runs, one of them among entries of others; and a run that is twice on a wire counts
/// twice there. What is counted in these journals was counted by hand, and so was the schedule of a tally. Of notes of
/// two ports it was said by hand whether they come in order.
pub fn run_rows_hold()
    ensures served_order { ServedOrder }
    ensures noted_run { NotedRun }
    ensures skipped_slots { SkippedSlots }
    ensures withdrawal_between { WithdrawalBetween }
    ensures open_run { OpenRun }
    ensures two_ports { TwoPorts }
    ensures twice_on_a_wire { TwiceOnAWire }
    ensures one_run { OneRun }
    ensures counted_runs { CountedRuns }
    ensures counted_grants { CountedGrants }
    ensures furthest_skips { FurthestSkips }
    ensures counted_notes { CountedNotes }
    ensures notes_in_order { NotesInOrder }
    ensures driven_apart { DrivenApart }
    ensures counted_kinds { CountedKinds }
    ensures slots_of_a_run { SlotsOfARun }
    ensures ended_flows { EndedFlows }
    ensures tallied_slots { TalliedSlots }
{}

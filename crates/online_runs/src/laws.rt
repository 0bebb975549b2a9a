//! Laws of online runs. Each says something of every opening of a master, every list of arrivals and every length of
//! epochs.
ghost use Rattle.std.specs.Prelude.{◌≡◌, ℕ, ◌+◌, ◌*◌, ◌^◌, ◌≤◌, true, List, [], All, length, slice_index};
ghost use Rattle.std.specs.List.{slice_index_or};
ghost use Rattle.coflow_units.specs.declared.limits.TheConstants.{MAX_UNITS};
ghost use Rattle.coflow_units.specs.Completion.{cost, holds_coflow};
ghost use Rattle.coflow_units.specs.Flows.{IsDistinct, units_of};
ghost use Rattle.coflow_units.specs.Schedule.{holds, IsClear, IsValid, times};
ghost use Rattle.flow_table.specs.Table.{instance_of};
ghost use Rattle.release_bound.specs.Release.{IsReleased};
ghost use Rattle.online_text.specs.declared.value.Online.{Online};
ghost use Rattle.online_text.specs.Online.{IsOnline};
ghost use Rattle.online_check.specs.declared.verdict.OnlineVerdict.{OnlineVerdict};
ghost use Rattle.online_check.specs.declared.verdict.OnlineVerdict.TheVariants.{Yes};
ghost use Rattle.online_check.specs.Reasons.{IsOnlineVerdict};
ghost use Rattle.online_check.specs.Sound.{IsSoundOnline};
ghost use Rattle.journal.specs.declared.command.Entry.{Entry};
ghost use Rattle.journal.specs.declared.opening.Opening.{Opening};
ghost use Rattle.journal.specs.State.{IsOpening};
ghost use Rattle.journal.specs.Closed.{schedule_of};
ghost use Rattle.journal.specs.Journal.{left_at};
ghost use Rattle.online_runs.specs.Deeds.{Deed, IsOnlineRun, IsOnlineSoFar, IsServedOnline, journal_of, PublishesTooMany, time_of};
ghost use Rattle.online_runs.specs.Input.{IsOnlineInput};
ghost use Rattle.online_runs.specs.Value.{epoch_at, IsOnlineOf};

use epochs::laws::action_is_one;
use online_check::laws::{online_verdict_is_one, yes_bounds_released_schedules};
use release_bound::laws::released_ordering_is_feasible;

/// The bound of a publishing is at most the cost of every valid schedule of what is left there, in slots counted from
/// its time.
pub fn publishings_have_bounds()
    ensures { (o : Opening) (before : List Entry) (slots : List (List ℕ)) → IsOpening o →
        IsValid (left_at o before).flows slots →
        (epoch_at o before).bound
        ≤ cost (left_at o before).flows (left_at o before).weight (left_at o before).coflows slots }
{}

/// Whatever an online run has served so far: no slot at or before its arrival holds a flow of a coflow, flows of a slot
/// share no port, and no flow stands in more slots than it has units.
pub fn online_runs_serve_nobody_early()
    ensures early { (o : Opening) (arrivals : List ℕ) (every : ℕ) (slots : List (List ℕ)) (coflow k : ℕ) →
        IsOnlineInput o arrivals every → IsServedOnline o arrivals every slots →
        holds_coflow o.table.flows (slice_index_or slots k []) coflow ≡ true → slice_index arrivals coflow ≤ k }
    ensures clear { (o : Opening) (arrivals : List ℕ) (every : ℕ) (slots : List (List ℕ)) →
        IsOnlineInput o arrivals every → IsServedOnline o arrivals every slots → All (IsClear o.table.flows) slots }
    ensures times { (o : Opening) (arrivals : List ℕ) (every : ℕ) (slots : List (List ℕ)) (f : ℕ) →
        IsOnlineInput o arrivals every → IsServedOnline o arrivals every slots →
        times slots f ≤ units_of o.table.flows f }
{}

/// Where an online run ends its schedule is valid, and serves nobody before its arrival.
pub fn online_runs_serve_all()
    ensures { (o : Opening) (arrivals : List ℕ) (every : ℕ) (journal : List Entry) → IsOnlineInput o arrivals every →
        IsOnlineRun o arrivals every journal →
        IsReleased o.table.flows (slice_index arrivals) (schedule_of o journal) }
{}

/// An online run has few entries: four for each coflow, two for each flow, and three for each of the 8192 orders that
/// may be published, and two. And few slots pass: up to the last arrival, and then as many as there may be units.
pub fn online_runs_are_short()
    ensures entries { (o : Opening) (arrivals : List ℕ) (every : ℕ) (deeds : List Deed) →
        IsOnlineInput o arrivals every → IsOnlineSoFar o arrivals every deeds →
        length (journal_of deeds) ≤ 4 * length o.table.ids + 2 * length o.table.flows + 24578 }
    ensures slots { (o : Opening) (arrivals : List ℕ) (every : ℕ) (deeds : List Deed) →
        IsOnlineInput o arrivals every → IsOnlineSoFar o arrivals every deeds →
        time_of o (journal_of deeds) ≤ 2 ^ 32 + MAX_UNITS }
{}

/// There is one online run at most, and none that ends where more orders would be published than may be. What one
/// served so far is part of what it serves to the end.
pub fn online_runs_are_one()
    ensures one { (o : Opening) (arrivals : List ℕ) (every : ℕ) (a b : List Entry) → IsOnlineRun o arrivals every a →
        IsOnlineRun o arrivals every b → a ≡ b }
    ensures too_many { (o : Opening) (arrivals : List ℕ) (every : ℕ) (journal : List Entry) (count : ℕ) →
        IsOnlineRun o arrivals every journal → PublishesTooMany o arrivals every count → ⊥ }
    ensures part { (o : Opening) (arrivals : List ℕ) (every : ℕ) (slots : List (List ℕ)) (journal : List Entry)
        (k f : ℕ) → IsOnlineInput o arrivals every → IsServedOnline o arrivals every slots →
        IsOnlineRun o arrivals every journal → holds (slice_index_or slots k []) f ≡ true →
        holds (slice_index_or (schedule_of o journal) k []) f ≡ true }
{
    action_is_one();
}

/// What an online run says is right, as the checker of online runs defines it, so the checker's verdict on it is yes;
/// the checker finds coflows by their ids, so ids must differ. Its total is at most the cost of every schedule that
/// serves nobody before its arrival.
pub fn online_run_is_right()
    ensures sound { (o : Opening) (arrivals : List ℕ) (every : ℕ) (x : Online) → IsOnlineInput o arrivals every →
        IsDistinct o.table.ids → IsOnlineOf o arrivals every x →
        IsSoundOnline (instance_of o.table o.weights) (slice_index arrivals) o.table.ids x }
    ensures verdict { (o : Opening) (arrivals : List ℕ) (every : ℕ) (x : Online) (verdict : OnlineVerdict) →
        IsOnlineInput o arrivals every → IsDistinct o.table.ids → IsOnlineOf o arrivals every x →
        IsOnlineVerdict (instance_of o.table o.weights) (slice_index arrivals) o.table.ids x verdict → verdict ≡ Yes }
    ensures total { (o : Opening) (arrivals : List ℕ) (every : ℕ) (x : Online) (slots : List (List ℕ)) →
        IsOnlineInput o arrivals every → IsDistinct o.table.ids → IsOnlineOf o arrivals every x →
        IsReleased o.table.flows (slice_index arrivals) slots →
        x.total ≤ cost o.table.flows (instance_of o.table o.weights).weight (instance_of o.table o.weights).coflows
        slots }
{
    released_ordering_is_feasible();
    online_verdict_is_one();
    yes_bounds_released_schedules();
}

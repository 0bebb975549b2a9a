//! Laws of replays. Each says something of every table, weights and arrivals, and of every ranker.
ghost use Rattle.std.specs.Prelude.{◌≡◌, ◌+◌, ℕ, ◌<◌, ◌≤◌, List, [], Contains, length, slice_index, take};
ghost use Rattle.std.specs.List.{slice_index_or};
ghost use Rattle.coflow_units.specs.declared.limits.TheConstants.{MAX_PUBLISHINGS};
ghost use Rattle.coflow_units.specs.Completion.{cost};
ghost use Rattle.coflow_units.specs.Flows.{IsDistinct};
ghost use Rattle.coflow_units.specs.Grants.{IsGrants};
ghost use Rattle.coflow_units.specs.Schedule.{IsValid};
ghost use Rattle.coflow_units.specs.Served.{left_after};
ghost use Rattle.epochs.specs.declared.action.Action.{Action};
ghost use Rattle.flow_table.specs.Table.{instance_of};
ghost use Rattle.online_check.specs.declared.verdict.OnlineVerdict.{OnlineVerdict};
ghost use Rattle.online_check.specs.declared.verdict.OnlineVerdict.TheVariants.{Yes};
ghost use Rattle.online_check.specs.Reasons.{IsOnlineVerdict};
ghost use Rattle.online_check.specs.Sound.{IsSoundOnline};
ghost use Rattle.online_text.specs.declared.value.Online.{Online};
ghost use Rattle.journal.specs.declared.command.Entry.{Entry};
ghost use Rattle.journal.specs.Closed.{schedule_of};
ghost use Rattle.online_runs.specs.Deeds.{IsOnlineRun, PublishesTooMany};
ghost use Rattle.online_runs.specs.Input.{online_opening};
ghost use Rattle.online_runs.specs.Value.{IsOnlineOf};
ghost use Rattle.rankers.specs.Kinds.{bssi};
ghost use Rattle.rankers.specs.Meaning.{Meaning};
ghost use Rattle.release_bound.specs.declared.place.ReleasePlace.{ReleasePlace};
ghost use Rattle.release_bound.specs.Best.{IsBestReleased};
ghost use Rattle.release_bound.specs.Release.{IsReleased};
ghost use Rattle.replays.specs.declared.rows.Replayed.{Replayed};
ghost use Rattle.replays.specs.declared.rows.Replayed.TheVariants.{Cost};
ghost use Rattle.replays.specs.declared.writing.ReplayReport.{ReplayReport};
ghost use Rattle.replays.specs.Moments.{DoesNext, Input, IsMoment, IsNext, Moment, Publishing, time_at};
ghost use Rattle.replays.specs.Recorded.{IsRecord, epoch_told};
ghost use Rattle.replays.specs.Replayed.{IsInput, IsReplay, IsReplayed, IsTooManyFor, cost_of_slots};
ghost use Rattle.replays.specs.Reported.{IsReported};

use epochs::laws::action_is_one;
use online_check::laws::online_verdict_is_one;
use release_bound::laws::{best_is_bound, released_ordering_is_feasible, released_ordering_is_one};

/// The schedule of a replay serves all units and serves nobody before its arrival.
pub fn replays_are_released()
    ensures { (x : Input) (ranker : Meaning) (slots : List (List ℕ)) → IsInput x → IsReplay x ranker slots →
        IsReleased x.table.flows (slice_index x.arrivals) slots }
{}

/// The greatest total of released certificates is at most the cost of each replay.
pub fn totals_bound_replays()
    ensures { (x : Input) (ranker : Meaning) (slots : List (List ℕ)) (places : List ReleasePlace) (total : ℕ) →
        IsInput x → IsReplay x ranker slots →
        IsBestReleased (instance_of x.table x.weights) (slice_index x.arrivals) places total →
        total ≤ cost_of_slots x slots }
{
    best_is_bound();
    replays_are_released();
}

/// The replay of a ranker comes to one thing at most, with one schedule, and where it comes to anything, it publishes
/// no more orders than may be. Where it would, the number of the next one is 8193.
pub fn replays_are_one()
    ensures slots { (x : Input) (ranker : Meaning) (a b : List (List ℕ)) → IsInput x → IsReplay x ranker a →
        IsReplay x ranker b → a ≡ b }
    ensures one { (x : Input) (ranker : Meaning) (a b : Replayed) → IsInput x → IsReplayed x ranker a →
        IsReplayed x ranker b → a ≡ b }
    ensures too_many { (x : Input) (ranker : Meaning) (result : Replayed) (count : ℕ) → IsInput x →
        IsReplayed x ranker result → IsTooManyFor x ranker count → ⊥ }
    ensures count { (x : Input) (ranker : Meaning) (count : ℕ) → IsTooManyFor x ranker count →
        count ≡ MAX_PUBLISHINGS + 1 }
{
    action_is_one();
}

/// The record of a replay is right, as the checker of online runs defines it, so the checker's verdict on it is yes;
/// the checker finds coflows by their ids, so ids must differ. No schedule that serves nobody before its arrival costs
/// less than its total.
pub fn records_are_right()
    ensures sound { (x : Input) (ranker : Meaning) (o : Online) → IsInput x → IsDistinct x.table.ids →
        IsRecord x ranker o →
        IsSoundOnline (instance_of x.table x.weights) (slice_index x.arrivals) x.table.ids o }
    ensures verdict { (x : Input) (ranker : Meaning) (o : Online) (verdict : OnlineVerdict) → IsInput x →
        IsDistinct x.table.ids → IsRecord x ranker o →
        IsOnlineVerdict (instance_of x.table x.weights) (slice_index x.arrivals) x.table.ids o verdict →
        verdict ≡ Yes }
    ensures total { (x : Input) (ranker : Meaning) (o : Online) (slots : List (List ℕ)) → IsInput x →
        IsRecord x ranker o → IsReleased x.table.flows (slice_index x.arrivals) slots →
        o.total ≤ cost_of_slots x slots }
{
    released_ordering_is_feasible();
    best_is_bound();
    online_verdict_is_one();
}

/// A record has the cost of its ranker's row, and the total of the report.
pub fn records_are_as_replays()
    ensures cost { (x : Input) (ranker : Meaning) (o : Online) (result : Replayed) → IsInput x →
        IsRecord x ranker o → IsReplayed x ranker result → result ≡ Cost o.cost }
    ensures total { (x : Input) (ranker : Meaning) (bench : List Meaning) (o : Online) (r : ReplayReport) →
        IsInput x → IsRecord x ranker o → IsReported x bench r → r.total ≡ o.total }
{
    replays_are_one();
    released_ordering_is_one();
}

/// The bound of a publishing is at most the cost of every valid schedule of what was left then, in slots counted from
/// its time.
pub fn published_bounds_hold()
    ensures { (x : Input) (ranker : Meaning) (moment : Moment) (p : Publishing) (slots : List (List ℕ)) →
        IsInput x → IsMoment x ranker moment → Contains moment.publishings p → IsValid p.left.flows slots →
        (epoch_told x.table.ids p).bound ≤ cost p.left.flows p.left.weight p.left.coflows slots }
{}

/// In each slot of a replay the flows are the grants of the line that stood then, for what was left then.
pub fn replays_serve_grants()
    ensures { (x : Input) (ranker : Meaning) (slots : List (List ℕ)) (k : ℕ) → IsInput x → IsReplay x ranker slots →
        k < length slots → (m : Moment) × (next : Moment) × (action : Action) × IsMoment x ranker m ×
        DoesNext x m action × IsNext x m action next × (time_at m ≤ k) × (k < time_at next) ×
        IsGrants x.table.flows m.line (left_after x.table.flows (take k slots)) (slice_index_or slots k []) }
{}

/// The replay of the ranker `bssi` does what an online run over the same table, weights, arrivals and epochs does: it
/// has the same schedule, its row is the cost that the online run tells, and where one of the two would publish more
/// orders than may be, the other one does not end.
pub fn bssi_replays_as_online()
    ensures slots { (x : Input) (journal : List Entry) (slots : List (List ℕ)) → IsInput x →
        IsOnlineRun (online_opening x.table x.weights) x.arrivals x.every journal → IsReplay x bssi slots →
        slots ≡ schedule_of (online_opening x.table x.weights) journal }
    ensures row { (x : Input) (online : Online) (result : Replayed) → IsInput x →
        IsOnlineOf (online_opening x.table x.weights) x.arrivals x.every online → IsReplayed x bssi result →
        result ≡ Cost online.cost }
    ensures too_many { (x : Input) (journal : List Entry) (count : ℕ) → IsInput x → IsTooManyFor x bssi count →
        IsOnlineRun (online_opening x.table x.weights) x.arrivals x.every journal → ⊥ }
    ensures online_too_many { (x : Input) (result : Replayed) (count : ℕ) → IsInput x →
        PublishesTooMany (online_opening x.table x.weights) x.arrivals x.every count → IsReplayed x bssi result → ⊥ }
{
    action_is_one();
}

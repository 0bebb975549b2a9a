//! What a yes says of an online run, and that a verdict is told by its definition alone, on a report of either kind.
ghost use Rattle.coflow_units.specs.Completion.{cost};
ghost use Rattle.coflow_units.specs.Flows.{Instance};
ghost use Rattle.flow_table.specs.Table.{TableFacts, instance_of};
ghost use Rattle.online_check.specs.AnyReport.{IsAnyBadAt, IsAnyText};
ghost use Rattle.online_check.specs.Judged.{IsJudged};
ghost use Rattle.online_check.specs.Reasons.{IsOnlineVerdict};
ghost use Rattle.online_check.specs.Sound.{IsSoundOnline};
ghost use Rattle.online_check.specs.declared.any_report.AnyReport.{AnyReport};
ghost use Rattle.online_check.specs.declared.verdict.OnlineVerdict.{OnlineVerdict};
ghost use Rattle.online_text.specs.declared.value.Online.{Online};
ghost use Rattle.release_bound.specs.Release.{IsReleased};
ghost use Rattle.schedule_model.specs.RunList.{slots_in};
ghost use Rattle.std.specs.Prelude.{◌≡◌, ℕ, ◌≤◌, List, Bool};

use release_bound::laws::released_is_bound;

/// No valid schedule that serves nobody before its arrival costs less than the total that a right online run states,
/// whoever made its text; and its own schedule is one of these, with the cost that it states.
pub fn yes_bounds_released_schedules()
    ensures total { (i : Instance) (arrival : ℕ → ℕ) (ids : List ℕ) (o : Online) (slots : List (List ℕ)) →
        IsSoundOnline i arrival ids o → IsReleased i.flows arrival slots →
        o.total ≤ cost i.flows i.weight i.coflows slots }
    ensures own { (i : Instance) (arrival : ℕ → ℕ) (ids : List ℕ) (o : Online) → IsSoundOnline i arrival ids o →
        IsReleased i.flows arrival (slots_in o.runs) }
    ensures cost { (i : Instance) (arrival : ℕ → ℕ) (ids : List ℕ) (o : Online) → IsSoundOnline i arrival ids o →
        o.cost ≡ cost i.flows i.weight i.coflows (slots_in o.runs) }
{
    released_is_bound();
}

/// An online run has one verdict.
pub fn online_verdict_is_one()
    ensures { (t : TableFacts) (weights : List ℕ) (arrival : ℕ → ℕ) (o : Online) (a b : OnlineVerdict) →
        IsOnlineVerdict (instance_of t weights) arrival t.ids o a →
        IsOnlineVerdict (instance_of t weights) arrival t.ids o b → a ≡ b }
{}

/// A report of either kind has one verdict, with one line.
pub fn judgement_is_one()
    ensures { (t : TableFacts) (weights : List ℕ) (arrival : ℕ → ℕ) (report : AnyReport) (a b : Bool) (x y : List ℕ) →
        IsJudged (instance_of t weights) arrival t.ids report a x →
        IsJudged (instance_of t weights) arrival t.ids report b y → (a ≡ b) × (x ≡ y) }
{}

/// A text is that of one report at most, whatever its kind, or it is bad at one line alone.
pub fn any_report_is_one()
    ensures report { (bytes : List ℕ) (a b : AnyReport) → IsAnyText bytes a → IsAnyText bytes b → a ≡ b }
    ensures line { (bytes : List ℕ) (m n : ℕ) → IsAnyBadAt bytes m → IsAnyBadAt bytes n → m ≡ n }
    ensures either { (bytes : List ℕ) (a : AnyReport) (line : ℕ) → IsAnyText bytes a → IsAnyBadAt bytes line → ⊥ }
{}

//! What a yes says, and that a verdict is told by its definition alone.
ghost use Rattle.std.specs.Prelude.{◌≡◌, ℕ, ◌+◌, ◌*◌, ◌≤◌, List};
ghost use Rattle.coflow_units.specs.Completion.{cost};
ghost use Rattle.coflow_units.specs.Flows.{Instance};
ghost use Rattle.coflow_units.specs.Schedule.{IsValid};
ghost use Rattle.flow_table.specs.Table.{TableFacts, instance_of};
ghost use Rattle.report_text.specs.declared.value.Report.{Report};
ghost use Rattle.cert_check.specs.declared.verdict.Verdict.{Verdict};
ghost use Rattle.cert_check.specs.Reasons.{IsVerdict};
ghost use Rattle.cert_check.specs.Sound.{IsSound};

/// No valid schedule of the instance, patient or not, costs less than the bound that a right report states, whoever
/// made it; and its own schedule costs at most four times as much as any, and the slack.
pub fn yes_bounds_every_schedule()
    ensures bound { (i : Instance) (ids : List ℕ) (r : Report) (slots : List (List ℕ)) → IsSound i ids r →
        IsValid i.flows slots → r.bound ≤ cost i.flows i.weight i.coflows slots }
    ensures four { (i : Instance) (ids : List ℕ) (r : Report) (slots : List (List ℕ)) → IsSound i ids r →
        IsValid i.flows slots → r.cost ≤ 4 * cost i.flows i.weight i.coflows slots + r.slack }
{}

/// A report has one verdict.
pub fn verdict_is_one()
    ensures { (t : TableFacts) (weights : List ℕ) (r : Report) (a b : Verdict) →
        IsVerdict (instance_of t weights) t.ids r a → IsVerdict (instance_of t weights) t.ids r b → a ≡ b }
{}

//! Laws of the journals of plans. Each says something of every opening and every legal journal.
ghost use Rattle.std.specs.Prelude.{◌≡◌, ℕ, ◌+◌, ◌*◌, ◌≤◌, List, [], ◌∷◌, ◌++◌, length};
ghost use Rattle.coflow_units.specs.declared.limits.TheConstants.{MAX_UNITS};
ghost use Rattle.coflow_units.specs.Served.{IsServed, IsServedSoFar};
ghost use Rattle.flow_table.specs.Table.{instance_of};
ghost use Rattle.journal.specs.declared.command.Command.TheVariants.{Open};
ghost use Rattle.journal.specs.declared.command.Entry.{Entry};
ghost use Rattle.journal.specs.declared.command.Reply.TheVariants.{NothingLeft};
ghost use Rattle.journal.specs.declared.opening.Opening.{Opening};
ghost use Rattle.journal.specs.State.{IsOpening};
ghost use Rattle.journal.specs.Fold.{state_of};
ghost use Rattle.journal.specs.Closed.{schedule_of};
ghost use Rattle.journal.specs.Driven.{Drive, IsDriven};
ghost use Rattle.journal.specs.Journal.{entry, IsLegal, left_at, line_of, order_in};
ghost use Rattle.journal.specs.Sound.{InRange};
ghost use Rattle.hall_plan.specs.Journals.{beginning, plan_journal, plan_order};
ghost use Rattle.slot_runner.specs.Wires.{IsPartOf};

/// The order that a plan publishes is that of the ordering certificate of the whole table, and the line is this order
/// from then on.
pub fn plans_publish_the_order()
    ensures left { (o : Opening) → IsOpening o → left_at o (beginning o) ≡ instance_of o.table o.weights }
    ensures order { (o : Opening) → IsOpening o → order_in o (beginning o) 1 ≡ plan_order o }
    ensures line { (o : Opening) (runs : List (ℕ × ℕ × ℕ)) → IsOpening o →
        line_of o (plan_journal o runs) ≡ plan_order o }
{}

/// The closed runs of a plan serve its order so far, and where an opening is answered that nothing is left they are the
/// served schedule.
pub fn plans_serve_the_order()
    ensures so_far { (o : Opening) (runs : List (ℕ × ℕ × ℕ)) → IsOpening o → IsLegal o (plan_journal o runs) →
        IsServedSoFar o.table.flows (plan_order o) (schedule_of o (plan_journal o runs)) }
    ensures end { (o : Opening) (runs : List (ℕ × ℕ × ℕ)) (most : ℕ) → IsOpening o →
        IsLegal o (plan_journal o runs ++ entry 0 (Open most) NothingLeft ∷ []) →
        IsServed o.table.flows (plan_order o) (schedule_of o (plan_journal o runs)) }
{}

/// Each run of a plan ends a flow. So a plan has no more runs than flows, and it passes no more slots than there may be
/// units.
pub fn plans_are_short()
    ensures runs { (o : Opening) (runs : List (ℕ × ℕ × ℕ)) → IsOpening o → IsLegal o (plan_journal o runs) →
        length runs ≤ length o.table.flows }
    ensures entries { (o : Opening) (runs : List (ℕ × ℕ × ℕ)) → IsOpening o → IsLegal o (plan_journal o runs) →
        length (plan_journal o runs) ≤ length o.table.ids + 2 * length o.table.flows + 1 }
    ensures slots { (o : Opening) (runs : List (ℕ × ℕ × ℕ)) → IsOpening o → IsLegal o (plan_journal o runs) →
        (state_of o (plan_journal o runs)).next ≤ MAX_UNITS + 1 }
{}

/// What is sent after the runs of a plan, and in one run more, whole or not, is part of the served schedule.
pub fn plans_send_parts()
    ensures runs { (o : Opening) (runs : List (ℕ × ℕ × ℕ)) (slots : List (List ℕ)) → IsOpening o →
        IsLegal o (plan_journal o runs) → IsServed o.table.flows (plan_order o) slots →
        IsPartOf (schedule_of o (plan_journal o runs)) slots }
    ensures next_run { (o : Opening) (runs : List (ℕ × ℕ × ℕ)) (after : List Entry) (d : Drive)
        (slots : List (List ℕ)) → IsOpening o → IsLegal o after → InRange o after →
        IsDriven o (plan_journal o runs) after d → d.earlier ≡ [] →
        IsServed o.table.flows (plan_order o) slots → IsPartOf (schedule_of o after) slots }
{}

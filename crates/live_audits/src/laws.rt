//! What is printed of a run of `live` is right, and so the audit's verdict on it is yes.
ghost use Rattle.std.specs.Prelude.{◌≡◌, ℕ, List, length};
ghost use Rattle.coflow_units.specs.Flows.{IsDistinct};
ghost use Rattle.schedule_model.specs.RunList.{slots_in};
ghost use Rattle.journal.specs.declared.command.Entry.{Entry};
ghost use Rattle.journal.specs.declared.opening.Opening.{Opening};
ghost use Rattle.workload.specs.declared.script.Script.{Script};
ghost use Rattle.live_text.specs.declared.value.Live.{Live};
ghost use Rattle.live_model.specs.Clause.{IsLiveRun};
ghost use Rattle.live_model.specs.Sent.{Wires};
ghost use Rattle.live_serving.specs.Ends.{MayBeAsked};
ghost use Rattle.journal_audit.specs.declared.verdict.Audit.{Audit};
ghost use Rattle.journal_audit.specs.declared.verdict.Audit.TheVariants.{Yes};
ghost use Rattle.journal_audit.specs.Reasons.{IsAudit};
ghost use Rattle.journal_audit.specs.Sound.{IsSoundLive};

/// What is printed of a run of `live` is right for the table and the weights that the run began with, where no two
/// coflows of the table have one id and the lines of the script may be asked. The journal of the run has the limit of
/// its script, and that of the audit as many entries as are printed, or 1 where there are none: the replies are the
/// same.
pub fn printed_runs_are_right()
    ensures { (o : Opening) (script : Script) (most : ℕ) (live : Live) (journal : List Entry) (wires : Wires) →
        IsDistinct o.table.ids → MayBeAsked o script → IsLiveRun o script most live journal wires →
        IsSoundLive o.table o.weights live }
{}

/// So yes, with the numbers of its entries, orders and slots, is a verdict on it, and there is no other.
pub fn printed_runs_are_audited_yes()
    ensures yes { (o : Opening) (script : Script) (most : ℕ) (live : Live) (journal : List Entry) (wires : Wires) →
        IsDistinct o.table.ids → MayBeAsked o script → IsLiveRun o script most live journal wires →
        IsAudit o.table o.weights live
        (Yes (length live.entries) (length live.orders) (length (slots_in live.runs))) }
    ensures only { (o : Opening) (script : Script) (most : ℕ) (live : Live) (journal : List Entry) (wires : Wires)
        (verdict : Audit) → IsDistinct o.table.ids → MayBeAsked o script →
        IsLiveRun o script most live journal wires → IsAudit o.table o.weights live verdict →
        verdict ≡ Yes (length live.entries) (length live.orders) (length (slots_in live.runs)) }
{}

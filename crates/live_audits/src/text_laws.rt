//! The text that is printed of a run of `live` is read back, and the audit's verdict on what is read is yes.
ghost use Rattle.std.specs.Prelude.{◌≡◌, ◌≤◌, ◌<◌, ◌^◌, ℕ, All, Err, List, Ok, length, sum_by};
ghost use Rattle.coflow_units.specs.declared.fabric.Flow.{Flow};
ghost use Rattle.coflow_units.specs.declared.limits.TheConstants.{MAX_LIVE_UNITS, MAX_TEXT, MAX_WEIGHT};
ghost use Rattle.coflow_units.specs.Flows.{IsDistinct};
ghost use Rattle.flow_table.specs.Table.{IsTable};
ghost use Rattle.schedule_model.specs.RunList.{slots_in};
ghost use Rattle.report_text.specs.declared.fault.ReportFault.TheVariants.{BadText};
ghost use Rattle.journal.specs.declared.command.Entry.{Entry};
ghost use Rattle.journal.specs.declared.opening.Opening.{Opening};
ghost use Rattle.journal.specs.State.{IsOpening};
ghost use Rattle.workload.specs.declared.script.Script.{Script};
ghost use Rattle.live_text.specs.declared.value.Live.{Live};
ghost use Rattle.live_text.specs.Live.{IsLive};
ghost use Rattle.live_text.specs.Reading.{GivesLive};
ghost use Rattle.live_text.specs.Text.{live_text};
ghost use Rattle.live_model.specs.Clause.{IsLiveRun};
ghost use Rattle.live_model.specs.Script.{limit_of};
ghost use Rattle.live_model.specs.Sent.{Wires};
ghost use Rattle.live_runs.specs.Read.{IsRead};
ghost use Rattle.journal_audit.specs.declared.verdict.Audit.{Audit};
ghost use Rattle.journal_audit.specs.declared.verdict.Audit.TheVariants.{Yes};
ghost use Rattle.journal_audit.specs.Reasons.{IsAudit};

/// What a hall begins with is within its limits, where its table and its weights are, clients may share the table's
/// units live, and the journal has the limit of a script that was read over the table's coflows.
pub fn openings_of_scripts_fit()
    ensures { (o : Opening) (script : Script) → IsTable o.table → length o.weights ≡ length o.table.ids →
        All (λ w. (1 ≤ w) × (w ≤ MAX_WEIGHT)) o.weights →
        sum_by (λ (x : Flow). x.units) o.table.flows ≤ MAX_LIVE_UNITS → IsRead o.table.ids script →
        o.limit ≡ limit_of o script → IsOpening o }
{}

/// What is printed of a run of `live` is a printed journal that a text can have, where the run began within its limits,
/// ids are below 2^32, the script was read of a text of at most 2^26 bytes, and an opening asks for 1 to 2^64 - 1
/// slots. So a reader of its text answers it, where there is memory.
pub fn printed_runs_are_read_back()
    ensures live { (o : Opening) (script : Script) (most : ℕ) (live : Live) (journal : List Entry) (wires : Wires) →
        IsOpening o → All (λ id. id < 2 ^ 32) o.table.ids → (given : IsRead o.table.ids script) →
        length given.text ≤ MAX_TEXT → 1 ≤ most → most < 2 ^ 64 → IsLiveRun o script most live journal wires →
        IsLive live }
    ensures same { (o : Opening) (script : Script) (most : ℕ) (live : Live) (journal : List Entry) (wires : Wires)
        (read : Live) → IsOpening o → All (λ id. id < 2 ^ 32) o.table.ids → (given : IsRead o.table.ids script) →
        length given.text ≤ MAX_TEXT → 1 ≤ most → most < 2 ^ 64 → IsLiveRun o script most live journal wires →
        GivesLive (live_text live) (Ok read) → read ≡ live }
    ensures taken { (o : Opening) (script : Script) (most : ℕ) (live : Live) (journal : List Entry) (wires : Wires)
        (line : ℕ) → IsOpening o → All (λ id. id < 2 ^ 32) o.table.ids → (given : IsRead o.table.ids script) →
        length given.text ≤ MAX_TEXT → 1 ≤ most → most < 2 ^ 64 → IsLiveRun o script most live journal wires →
        GivesLive (live_text live) (Err (BadText line)) → ⊥ }
{}

/// Where ids differ too, yes, with the numbers of entries, orders and slots that were printed, is a verdict on what a
/// reader answers of the text, and there is no other.
pub fn printed_texts_are_audited_yes()
    ensures yes { (o : Opening) (script : Script) (most : ℕ) (live : Live) (journal : List Entry) (wires : Wires)
        (read : Live) → IsOpening o → IsDistinct o.table.ids → All (λ id. id < 2 ^ 32) o.table.ids →
        (given : IsRead o.table.ids script) → length given.text ≤ MAX_TEXT → 1 ≤ most → most < 2 ^ 64 →
        IsLiveRun o script most live journal wires → GivesLive (live_text live) (Ok read) →
        IsAudit o.table o.weights read
        (Yes (length live.entries) (length live.orders) (length (slots_in live.runs))) }
    ensures only { (o : Opening) (script : Script) (most : ℕ) (live : Live) (journal : List Entry) (wires : Wires)
        (read : Live) (verdict : Audit) → IsOpening o → IsDistinct o.table.ids →
        All (λ id. id < 2 ^ 32) o.table.ids → (given : IsRead o.table.ids script) →
        length given.text ≤ MAX_TEXT → 1 ≤ most → most < 2 ^ 64 → IsLiveRun o script most live journal wires →
        GivesLive (live_text live) (Ok read) → IsAudit o.table o.weights read verdict →
        verdict ≡ Yes (length live.entries) (length live.orders) (length (slots_in live.runs)) }
{}

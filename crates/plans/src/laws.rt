//! Laws of plans, and of the reports of orders that are given, joined from those of schedules, certificates and orders.
ghost use Rattle.std.specs.Prelude.{◌≡◌, ℕ, ◌+◌, ◌*◌, ◌<◌, ◌≤◌, ◌^◌, ◌⊎◌, All, Err, List, [], ◌∷◌, Ok, length, sum_by};
ghost use Rattle.coflow_units.specs.declared.limits.TheConstants.{MAX_UNITS};
ghost use Rattle.std.specs.List.{range_with_len};
ghost use Rattle.coflow_units.specs.declared.fabric.Flow.{Flow};
ghost use Rattle.coflow_units.specs.declared.fabric.Port.{Port};
ghost use Rattle.coflow_units.specs.declared.trace.Trace.{Trace};
ghost use Rattle.coflow_units.specs.Certificate.{Entry, bound, front_loads, order_of, slack};
ghost use Rattle.coflow_units.specs.Completion.{cost, end_of};
ghost use Rattle.coflow_units.specs.Flows.{Instance, IsDistinct, IsInstance, units_of};
ghost use Rattle.coflow_units.specs.Load.{load_of_all};
ghost use Rattle.coflow_units.specs.Ordering.{IsOrdering};
ghost use Rattle.coflow_units.specs.Patient.{egress_port, ingress_port, up_to};
ghost use Rattle.coflow_units.specs.Rows.{two_flows};
ghost use Rattle.coflow_units.specs.Schedule.{IsValid};
ghost use Rattle.coflow_units.specs.Served.{IsServed};
ghost use Rattle.coflow_units.specs.SmallCases.{longer_first_slots, one_each};
ghost use Rattle.coflow_units.specs.Trace.{IsTrace};
ghost use Rattle.flow_table.specs.Table.{IsTableOf, TableFacts, instance_of};
ghost use Rattle.report_text.specs.declared.fault.ReportFault.TheVariants.{BadText};
ghost use Rattle.report_text.specs.declared.value.Report.{Report};
ghost use Rattle.report_text.specs.Reading.{GivesReport};
ghost use Rattle.report_text.specs.Report.{HasSmallNumbers, IsReport};
ghost use Rattle.report_text.specs.Text.{report_text};
ghost use Rattle.cert_check.specs.declared.verdict.Reason.TheVariants.{RatioBroken};
ghost use Rattle.cert_check.specs.declared.verdict.Verdict.{Verdict};
ghost use Rattle.cert_check.specs.declared.verdict.Verdict.TheVariants.{No, Yes};
ghost use Rattle.cert_check.specs.Reasons.{IsVerdict};
ghost use Rattle.cert_check.specs.Sound.{IsSound};
ghost use Rattle.plans.specs.NoPrices.{no_prices};
ghost use Rattle.plans.specs.PlanReport.{IsPlanOf};
ghost use Rattle.plans.specs.ServedReport.{IsServedReport};
ghost use Rattle.plans.specs.Totals.{BoundsEverySchedule, IsWithinFour};
ghost use Rattle.plans.specs.Weighed.{IsWeighed};

/// No valid schedule costs less than the bound of the ordering certificate, and the schedule that serves its order
/// costs at most four times that bound and the slack.
pub fn plan_is_within_four()
    ensures bound { (i : Instance) (entries : List Entry) (slots : List (List ℕ)) → IsOrdering i entries →
        IsValid i.flows slots → bound i.flows entries ≤ cost i.flows i.weight i.coflows slots }
    ensures served { (i : Instance) (entries : List Entry) (slots : List (List ℕ)) → IsInstance i →
        IsOrdering i entries → IsServed i.flows (order_of entries) slots →
        cost i.flows i.weight i.coflows slots ≤ 4 * bound i.flows entries + slack i.flows i.weight entries }
{}

/// The slack of a plan is what rounding down leaves: at most 2 for each coflow where no port has more than 2^20 units,
/// and never more than twice the sum of the loads of the fronts, since a table has at most 2^40 units.
pub fn plan_slack_is_small()
    ensures two_each { (i : Instance) (entries : List Entry) → IsOrdering i entries →
        ((port : Port) → port.number < i.ports → load_of_all i.flows i.coflows port ≤ 2 ^ 20) →
        slack i.flows i.weight entries ≤ 2 * length i.coflows }
    ensures by_fronts { (i : Instance) (entries : List Entry) → IsOrdering i entries →
        sum_by (λ (x : Flow). x.units) i.flows ≤ MAX_UNITS →
        slack i.flows i.weight entries ≤ 2 * front_loads i.flows entries }
    ensures plan { (t : TableFacts) (weights : List ℕ) (r : Report) → IsWeighed t weights →
        IsPlanOf (instance_of t weights) t.ids r → (entries : List Entry) × IsOrdering (instance_of t weights) entries
        × (r.slack ≤ 2 * front_loads t.flows entries)
        × (((port : Port) → port.number < t.ports → load_of_all t.flows (range_with_len 0 (length t.ids)) port ≤ 2 ^ 20)
        →
        r.slack ≤ 2 * length t.ids) }
{}

/// The laws hold of a worked certificate and order: two flows served in the order of their numbers, with a certificate
/// that charges nothing.
pub fn laws_hold_without_prices()
    ensures four { cost two_flows one_each (0 ∷ 1 ∷ []) longer_first_slots ≤ 4 * bound two_flows no_prices +
        slack two_flows one_each no_prices }
    ensures short { end_of longer_first_slots 1 + units_of two_flows 1 ≤
        load_of_all two_flows (up_to (0 ∷ 1 ∷ []) 1) (ingress_port two_flows 1) +
        load_of_all two_flows (up_to (0 ∷ 1 ∷ []) 1) (egress_port two_flows 1) }
{}

/// The plan of a table is right as the checker of reports defines it, so the checker's verdict on it is yes. The
/// checker finds coflows by their ids, so ids must differ; those of the table of a trace do.
pub fn plan_is_right()
    ensures sound { (t : TableFacts) (weights : List ℕ) (r : Report) → IsWeighed t weights → IsDistinct t.ids →
        IsPlanOf (instance_of t weights) t.ids r → IsSound (instance_of t weights) t.ids r }
    ensures verdict { (t : TableFacts) (weights : List ℕ) (r : Report) (verdict : Verdict) → IsWeighed t weights →
        IsDistinct t.ids → IsPlanOf (instance_of t weights) t.ids r →
        IsVerdict (instance_of t weights) t.ids r verdict → verdict ≡ Yes }
    ensures ids { (trace : Trace) (unit : ℕ) (t : TableFacts) → IsTrace trace → IsTableOf trace unit t →
        IsDistinct t.ids }
{}

/// The plan of a table is a report that a text can have, and its numbers fit their types where the ids do. So a reader
/// of its text answers it, where there is memory, and where ids differ the verdict on what was read is yes.
pub fn plan_is_read_back()
    ensures report { (t : TableFacts) (weights : List ℕ) (r : Report) → IsWeighed t weights →
        IsPlanOf (instance_of t weights) t.ids r → IsReport r }
    ensures small { (t : TableFacts) (weights : List ℕ) (r : Report) → IsWeighed t weights →
        All (λ id. id < 2 ^ 32) t.ids → IsPlanOf (instance_of t weights) t.ids r → HasSmallNumbers r }
    ensures same { (t : TableFacts) (weights : List ℕ) (r read : Report) → IsWeighed t weights →
        All (λ id. id < 2 ^ 32) t.ids → IsPlanOf (instance_of t weights) t.ids r →
        GivesReport (report_text r) (Ok read) → read ≡ r }
    ensures yes { (t : TableFacts) (weights : List ℕ) (r read : Report) (verdict : Verdict) → IsWeighed t weights →
        IsDistinct t.ids → All (λ id. id < 2 ^ 32) t.ids → IsPlanOf (instance_of t weights) t.ids r →
        GivesReport (report_text r) (Ok read) → IsVerdict (instance_of t weights) t.ids read verdict → verdict ≡ Yes }
    ensures taken { (t : TableFacts) (weights : List ℕ) (r : Report) (line : ℕ) → IsWeighed t weights →
        All (λ id. id < 2 ^ 32) t.ids → IsPlanOf (instance_of t weights) t.ids r →
        GivesReport (report_text r) (Err (BadText line)) → ⊥ }
{}

/// The text of the report of a plan has at most 200 bytes, 200 more for each coflow and 50 more for each unit: each
/// slot serves a flow, and no unit is served twice, so the runs have no more flows together than there are units.
pub fn plan_text_is_short()
    ensures { (t : TableFacts) (weights : List ℕ) (r : Report) → IsWeighed t weights → All (λ id. id < 2 ^ 32) t.ids →
        IsPlanOf (instance_of t weights) t.ids r →
        length (report_text r) ≤ 200 + 200 * length t.ids + 50 * sum_by (λ (x : Flow). x.units) t.flows }
{}

/// No valid schedule costs less than the bound of the report of a given order.
pub fn served_report_bounds_every_schedule()
    ensures { (i : Instance) (ids line : List ℕ) (r : Report) → IsServedReport i ids line r → BoundsEverySchedule i r }
{}

/// Where ids differ, a checker finds the report of a given order right but for the ratio: its verdict is yes, or that
/// the cost is more than four times the bound and the slack. Where the cost is no more than that, it is yes.
pub fn served_report_is_right_but_for_the_ratio()
    ensures verdict { (t : TableFacts) (weights line : List ℕ) (r : Report) (verdict : Verdict) → IsWeighed t weights →
        IsDistinct t.ids → IsServedReport (instance_of t weights) t.ids line r →
        IsVerdict (instance_of t weights) t.ids r verdict →
        (verdict ≡ Yes) ⊎ (verdict ≡ No (RatioBroken r.cost (4 * r.bound + r.slack))) }
    ensures yes { (t : TableFacts) (weights line : List ℕ) (r : Report) (verdict : Verdict) → IsDistinct t.ids →
        IsServedReport (instance_of t weights) t.ids line r → IsWithinFour r →
        IsVerdict (instance_of t weights) t.ids r verdict → verdict ≡ Yes }
{}

/// The report of a given order is one that a text can have, and its numbers fit their types where the ids do. So a
/// reader of its text answers it, where there is memory.
pub fn served_report_is_read_back()
    ensures report { (t : TableFacts) (weights line : List ℕ) (r : Report) → IsWeighed t weights →
        IsServedReport (instance_of t weights) t.ids line r → IsReport r }
    ensures small { (t : TableFacts) (weights line : List ℕ) (r : Report) → IsWeighed t weights →
        All (λ id. id < 2 ^ 32) t.ids → IsServedReport (instance_of t weights) t.ids line r → HasSmallNumbers r }
    ensures same { (t : TableFacts) (weights line : List ℕ) (r read : Report) → IsWeighed t weights →
        All (λ id. id < 2 ^ 32) t.ids → IsServedReport (instance_of t weights) t.ids line r →
        GivesReport (report_text r) (Ok read) → read ≡ r }
    ensures taken { (t : TableFacts) (weights line : List ℕ) (r : Report) (bad : ℕ) → IsWeighed t weights →
        All (λ id. id < 2 ^ 32) t.ids → IsServedReport (instance_of t weights) t.ids line r →
        GivesReport (report_text r) (Err (BadText bad)) → ⊥ }
{}

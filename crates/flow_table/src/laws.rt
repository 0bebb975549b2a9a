//! Laws of the flows of a trace.
ghost use Rattle.std.specs.Prelude.{◌≡◌, ℕ, ◌≤◌, All, List, length, sum_by};
ghost use Rattle.coflow_units.specs.declared.fabric.Flow.{Flow};
ghost use Rattle.coflow_units.specs.declared.quantity.Quantity.{Quantity};
ghost use Rattle.coflow_units.specs.declared.trace.Trace.{Trace};
ghost use Rattle.coflow_units.specs.Flows.{IsWhole};
ghost use Rattle.coflow_units.specs.Trace.{IsTrace};
ghost use Rattle.flow_table.specs.Causes.{ExceedsLimit};
ghost use Rattle.flow_table.specs.FlowsOf.{IsFlowsOf};
ghost use Rattle.flow_table.specs.Rows.{TwoMappers};
ghost use Rattle.flow_table.specs.Table.{IsTable, IsTableOf, TableFacts, instance_of};
ghost use Rattle.flow_table.specs.Units.{units_in_all};

/// At most one list is the flows of a trace.
pub fn flows_are_one()
    ensures { (t : Trace) (unit : ℕ) (a b : List Flow) → IsFlowsOf t unit a → IsFlowsOf t unit b → a ≡ b }
{}

/// Some list is the flows of a trace, however long it is.
pub fn flows_exist()
    ensures { (t : Trace) (unit : ℕ) → IsTrace t → (flows : List Flow) × IsFlowsOf t unit flows }
{}

/// The flows of a trace have the units of its reducers, no more and no fewer.
pub fn units_are_kept()
    ensures { (t : Trace) (unit : ℕ) (flows : List Flow) → IsTrace t → IsFlowsOf t unit flows →
        sum_by (λ (x : Flow). x.units) flows ≡ units_in_all t unit }
{}

/// The starts of a table follow from its flows and its number of coflows.
/// So a trace has one table at most where a unit has so many megabytes.
pub fn tables_are_one()
    ensures starts { (a b : TableFacts) → IsTable a → IsTable b →
        a.flows ≡ b.flows → length a.ids ≡ length b.ids → a.starts ≡ b.starts }
    ensures table { (trace : Trace) (unit : ℕ) (a b : TableFacts) → IsTable a → IsTable b →
        IsTableOf trace unit a → IsTableOf trace unit b → a ≡ b }
{}

/// A trace exceeds one limit at most, with one count.
pub fn limit_is_one()
    ensures { (trace : Trace) (unit : ℕ) (which other : Quantity) (count more : ℕ) →
        ExceedsLimit trace unit which count → ExceedsLimit trace unit other more → (which ≡ other) × (count ≡ more) }
{}

/// The definitions give what was worked out by hand: units are rounded up, the first mapper sends what is left over,
/// and flows go from mappers to reducers.
pub fn rows_hold()
    ensures two_mappers { TwoMappers }
{}

/// The instance of a table with a weight of at least 1 for each coflow is one as a trace gives it.
pub fn instance_is_whole()
    ensures { (t : TableFacts) (weights : List ℕ) → IsTable t → length weights ≡ length t.ids →
        All (λ w. 1 ≤ w) weights → IsWhole (instance_of t weights) }
{}

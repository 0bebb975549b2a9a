//! Laws of tables of loads.
ghost use Rattle.std.specs.Prelude.{◌≡◌, ℕ, ◌≤◌, List, sum_by};
ghost use Rattle.coflow_units.specs.declared.fabric.Flow.{Flow};
ghost use Rattle.coflow_units.specs.declared.fabric.Port.{Port};
ghost use Rattle.coflow_units.specs.Flows.{IsDistinct};
ghost use Rattle.coflow_units.specs.Load.{load_of_all};
ghost use Rattle.port_load.specs.LoadTable.{DropsAll, HasLoads, LoadTable, flows_without};

/// After any list of coflows was dropped, the table has the loads of the flows of the others, as if it had been filled
/// without the dropped ones.
pub fn drops_are_anew()
    ensures { (flows : List Flow) (old new : LoadTable) (dropped : List ℕ) → HasLoads flows old →
        DropsAll old new dropped → HasLoads (flows_without dropped flows) new }
{}

/// A port has no more load than all flows have units.
pub fn loads_are_within_units()
    ensures { (flows : List Flow) (coflows : List ℕ) (port : Port) → IsDistinct coflows →
        load_of_all flows coflows port ≤ sum_by (λ (x : Flow). x.units) flows }
{}

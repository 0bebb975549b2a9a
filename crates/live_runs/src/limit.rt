//! The limit of the journal of a script that was read.
ghost use Rattle.std.specs.Prelude.{◌≡◌, ◌^◌, ◌≤◌, sum_by};
ghost use Rattle.coflow_units.specs.declared.fabric.Flow.{Flow};
ghost use Rattle.coflow_units.specs.declared.limits.TheConstants.{MAX_LIVE_UNITS};
ghost use Rattle.journal.specs.declared.opening.Opening.{Opening};
ghost use Rattle.live_model.specs.Script.{limit_of};
ghost use Rattle.live_runs.specs.Read.{IsRead};

use flow_table::Table;
use live_serving::journal_limit;
use workload::Script;

/// The limit of the journal for a script that was read over the coflows of a table, which has no more units than
/// clients may share live: the script's commands, twice its rounds, twice the units, and two.
pub fn limit_of_read(table: &Table, script: &Script) -> u32
    requires read { IsRead table.now.ids script.now }
    requires units { sum_by (λ (x : Flow). x.units) table.now.flows ≤ MAX_LIVE_UNITS }
    ensures limit { (o : Opening) → o.table ≡ table.now → result ≡ limit_of o script.now }
    ensures few { result ≤ 2 ^ 23 }
{
    match journal_limit(table, script) {
        Some(limit) => limit,
        None => unreachable!(),
    }
}

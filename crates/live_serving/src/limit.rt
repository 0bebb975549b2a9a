//! The commands of a script, and the limit of the journal of a run of `live`.
ghost use Rattle.coflow_units.specs.declared.fabric.Flow.{Flow};
ghost use Rattle.journal.specs.declared.opening.Opening.{Opening};
ghost use Rattle.live_model.specs.Script.{limit_of, lines_of};
ghost use Rattle.std.specs.Prelude.{◌≡◌, ◌-◌, ◌^◌, ◌<◌, ◌≤◌, min, length, sum_by, None, Some, ℕ};

use flow_table::Table;
use workload::Script;

/// The most entries that a journal may have: 2^23.
const MOST_ENTRIES: u64 = 8_388_608;

/// The limit of the journal for a script over a table: its commands, twice its rounds, twice the units, and two. `None`
/// comes exactly where that is more than 2^23.
pub fn journal_limit(table: &Table, script: &Script) -> Option<u32>
    ensures some { (limit : ℕ) (o : Opening) → result ≡ Some limit → o.table ≡ table.now →
        limit ≡ limit_of o script.now }
    ensures few { (limit : ℕ) → result ≡ Some limit → limit ≤ 2 ^ 23 }
    ensures none { (o : Opening) → result ≡ None → o.table ≡ table.now → 2 ^ 23 < limit_of o script.now }
{
    let rounds = script.rounds.as_slice().len() as u64;
    let entries = 2u64
        .saturating_add(commands(script))
        .saturating_add(rounds.saturating_mul(2))
        .saturating_add(units(table).saturating_mul(2));
    if entries > MOST_ENTRIES {
        return None;
    }
    Some(entries as u32)
}

// How many commands the script has, or 2^64 - 1 where there are more.
fn commands(script: &Script) -> u64
    ensures { result ≡ min (length (lines_of script.now)) (2 ^ 64 - 1) }
{
    let mut count = 0u64;
    for round in script.rounds.as_slice() {
        count = count.saturating_add(round.lines.as_slice().len() as u64);
    }
    count
}

// How many units the flows of the table have together, or 2^64 - 1 where there are more.
fn units(table: &Table) -> u64
    ensures { result ≡ min (sum_by (λ (f : Flow). f.units) table.now.flows) (2 ^ 64 - 1) }
{
    let mut count = 0u64;
    for flow in table.flows() {
        count = count.saturating_add(flow.units);
    }
    count
}

/// How many commands the script has.
pub(crate) fn commands_of(script: &Script) -> u32
    requires few { length (lines_of script.now) < 2 ^ 32 }
    ensures { result ≡ length (lines_of script.now) }
{
    let mut count = 0;
    for round in script.rounds.as_slice() {
        count += round.lines.as_slice().len() as u32;
    }
    count
}

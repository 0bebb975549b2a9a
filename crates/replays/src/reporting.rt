//! What is reported of the replays of a bench.
ghost use Rattle.std.specs.Prelude.{◌≡◌, ◌<◌, ◌^◌, ℕ, [], Contains, Err, IfOk, OnOk, drop, length, map};
ghost use Rattle.rankers.specs.Meaning.{Meaning};
ghost use Rattle.replays.specs.declared.rows.ReplayFault.TheVariants.{NoMemory as OutOfMemory, TooMany};
ghost use Rattle.replays.specs.declared.writing.ReplayReport.{ReplayReport};
ghost use Rattle.replays.specs.Moments.{Input};
ghost use Rattle.replays.specs.Replayed.{IsCutOff, IsInput, IsTooManyFor, StopsAt};
ghost use Rattle.replays.specs.Reported.{IsBounded, IsReported};
ghost use Rattle.replays.specs.Text.{replay_text};

use crate::laws::{replays_are_one, replays_are_released, totals_bound_replays};
use crate::rows::{ReplayFault, replay_all};
use crate::writing::{ReplayReport, write_replay};
use coflow_units::Items;
use flow_table::Table;
use rankers::Ranker;
use release_bound::laws::{arrivals_are_below, best_is_bound};
use release_bound::{arrivals_cost, best_released};
use std::alloc::Global;

/// The text of the replays of the rankers of a bench on a table whose coflows arrive. There is a weight, at most 2^32,
/// and an arrival, at most 2^32 slots, for each coflow; an epoch has `every` slots, from 1 to 2^40; and there are fewer
/// than 2^32 rankers.
///
/// Each ranker in turn is taken off the bench, replayed and dropped, so on success the bench is empty. The error is
/// want of memory, or that a replay would publish more than 8192 orders. Then the rankers that were not reached are
/// still there, as they were and in their order. The ranker whose replay would publish too many is the last one that
/// was taken off. After either error the replay of each but the last one that was taken off came to something.
pub fn replays_text(
    alloc: Global,
    table: &Table,
    weights: &[u64],
    arrivals: &[u64],
    every: u64,
    bench: &mut Vec<Box<dyn Ranker>>,
) -> Result<Vec<u8>, ReplayFault>
    requires input { IsInput
        record { table = table.now; weights = weights.now; arrivals = arrivals.now; every = every } }
    requires few { length bench.old.items < 2 ^ 32 }
    ensures text { IfOk result (λ text. (r : ReplayReport) × IsReported
        record { table = table.now; weights = weights.now; arrivals = arrivals.now; every = every }
        (map (λ b. meaning b) bench.old.items) r × IsBounded
        record { table = table.now; weights = weights.now; arrivals = arrivals.now; every = every } r ×
        (text.items ≡ replay_text r)) }
    ensures few { OnOk result ((ranker : Meaning) (count : ℕ) → Contains (map (λ b. meaning b) bench.old.items) ranker →
        IsTooManyFor record { table = table.now; weights = weights.now; arrivals = arrivals.now; every = every }
        ranker count → ⊥) }
    ensures empty { OnOk result (bench.new.items ≡ []) }
    ensures left { (reached : ℕ) × (bench.new.items ≡ drop reached bench.old.items) }
    ensures too_many { (count : ℕ) → result ≡ Err (TooMany count) →
        (ranker : Meaning) × Contains (map (λ b. meaning b) bench.old.items) ranker × IsTooManyFor
        record { table = table.now; weights = weights.now; arrivals = arrivals.now; every = every } ranker count }
    ensures stops { (count : ℕ) → result ≡ Err (TooMany count) → StopsAt
        record { table = table.now; weights = weights.now; arrivals = arrivals.now; every = every } count
        (map (λ b. meaning b) bench.old.items) (map (λ b. meaning b) bench.new.items) }
    ensures cut_off { result ≡ Err OutOfMemory → IsCutOff
        record { table = table.now; weights = weights.now; arrivals = arrivals.now; every = every }
        (map (λ b. meaning b) bench.old.items) (map (λ b. meaning b) bench.new.items) }
{
    best_is_bound();
    arrivals_are_below();
    totals_bound_replays();
    replays_are_one();
    replays_are_released();
    let best = best_released(alloc, table, weights, arrivals)?;
    let rows = replay_all(alloc, table, weights, arrivals, every, bench)?;
    let report = ReplayReport {
        total: best.total,
        arrivals: arrivals_cost(table, weights, arrivals),
        rows: Items::from_vec(rows),
    };
    let text = write_replay(alloc, &report)?;
    Ok(text)
}

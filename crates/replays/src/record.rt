//! The record of the replay of one ranker.
ghost use Rattle.std.specs.Prelude.{◌≡◌, ℕ, ◌≤◌, [], ◌∷◌, All, Err, IfOk, OnOk, is_some, length, slice_index, true};
ghost use Rattle.coflow_units.specs.declared.limits.TheConstants.{MAX_ARRIVAL, MAX_WEIGHT};
ghost use Rattle.flow_table.specs.Table.{instance_of};
ghost use Rattle.rankers.specs.Meaning.{Meaning};
ghost use Rattle.release_bound.specs.Best.{arrivals_cost};
ghost use Rattle.replays.specs.declared.rows.ReplayFault.TheVariants.{TooMany};
ghost use Rattle.replays.specs.declared.rows.Replayed.TheVariants.{Cost};
ghost use Rattle.replays.specs.Kept.{Ends, Tells};
ghost use Rattle.replays.specs.Moments.{Input, first_moment};
ghost use Rattle.replays.specs.Recorded.{HasForm, IsRecorded};
ghost use Rattle.replays.specs.Replayed.{IsInput, IsReplayed, IsTooManyFor};

use crate::kept::Kept;
use crate::laws::replays_are_one;
use crate::recording::{Recording, recorded};
use crate::replaying::{course_of, serve};
use crate::rows::{ReplayFault, ReplayRow, Replayed, name_of};
use crate::writing::ReplayReport;
use coflow_units::{Items, NoMemory};
use flow_table::Table;
use online_runs::told;
use online_text::Online;
use rankers::Ranker;
use release_bound::{arrivals_cost, best_released};
use std::alloc::Global;

/// What the replay of one ranker is recorded as.
#[derive(Drop)]
pub enum Recorded {
    /// Each answer was an order: the publishings, the schedule and the best released certificate, in the form of an
    /// online run.
    Run(Online),
    /// One was none: the report of a bench that has this ranker alone.
    Unfit(ReplayReport),
}

/// Replays one ranker, as `replay` does, and records it: the orders that it published, the schedule, the completions
/// and the cost, and of the released certificates the one with the greatest total. Each place of an order has what the
/// ordering certificate of what was left then charges for its coflow, and each order the bound of this certificate.
///
/// There is a weight, at most 2^32, and an arrival, at most 2^32 slots, for each coflow, and an epoch has from 1 to
/// 2^40 slots. The ranker is dropped at the end. The error is want of memory, or that more than 8192 orders would be
/// published.
pub fn record_replay(
    alloc: Global,
    table: &Table,
    weights: &[u64],
    arrivals: &[u64],
    every: u64,
    ranker: Box<dyn Ranker>,
) -> Result<Recorded, ReplayFault>
    requires input { IsInput
        record { table = table.now; weights = weights.now; arrivals = arrivals.now; every = every } }
    ensures recorded { IfOk result (IsRecorded
        record { table = table.now; weights = weights.now; arrivals = arrivals.now; every = every }
        (meaning ranker)) }
    ensures form { IfOk result HasForm }
    ensures few { OnOk result ((count : ℕ) → IsTooManyFor
        record { table = table.now; weights = weights.now; arrivals = arrivals.now; every = every }
        (meaning ranker) count → ⊥) }
    ensures too_many { (count : ℕ) → result ≡ Err (TooMany count) → IsTooManyFor
        record { table = table.now; weights = weights.now; arrivals = arrivals.now; every = every }
        (meaning ranker) count }
{
    replays_are_one();
    let best = best_released(alloc, table, weights, arrivals)?;
    let name = name_of(alloc, &ranker)?;
    let Played { result, kept } = play(alloc, table, weights, arrivals, every, ranker)?;
    match result {
        Replayed::Cost(_) => {
            let Recording {
                epochs,
                schedule,
                ..
            } = recorded(kept.recording);
            let online = told(alloc, table, weights, &best, epochs, schedule)?;
            Ok(Recorded::Run(online))
        }
        Replayed::Unfit { .. } => {
            let arrivals = arrivals_cost(table, weights, arrivals);
            let report = report_of(alloc, best.total, arrivals, name, result)?;
            Ok(Recorded::Unfit(report))
        }
    }
}

/// What comes of a replay that is recorded, and what it keeps.
#[derive(Drop)]
struct Played {
    result: Replayed,
    kept: Kept,
}

/// Replays one ranker, and keeps what a record tells.
fn play(
    alloc: Global,
    table: &Table,
    weights: &[u64],
    arrivals: &[u64],
    every: u64,
    ranker: Box<dyn Ranker>,
) -> Result<Played, ReplayFault>
    requires input { IsInput
        record { table = table.now; weights = weights.now; arrivals = arrivals.now; every = every } }
    ensures replayed { IfOk result (λ played. IsReplayed
        record { table = table.now; weights = weights.now; arrivals = arrivals.now; every = every }
        (meaning ranker) played.result) }
    ensures ends { IfOk result (λ played. (total : ℕ) → played.result ≡ Cost total → Ends
        record { table = table.now; weights = weights.now; arrivals = arrivals.now; every = every }
        (meaning ranker) played.kept) }
    ensures recorded { IfOk result (λ played. is_some played.kept.recording ≡ true) }
    ensures too_many { (count : ℕ) → result ≡ Err (TooMany count) → IsTooManyFor
        record { table = table.now; weights = weights.now; arrivals = arrivals.now; every = every }
        (meaning ranker) count }
{
    let mut course = course_of(alloc, arrivals, every)?;
    let mut kept = begin(alloc, table, weights)?;
    let mut ranker = ranker;
    let result = serve(alloc, table, weights, &mut course, &mut kept, &mut ranker)?;
    Ok(Played { result, kept })
}

/// What is kept before the first action of a replay that is recorded. The error is want of memory.
fn begin(alloc: Global, table: &Table, weights: &[u64]) -> Result<Kept, NoMemory>
    requires count { length weights.now ≡ length table.now.ids }
    requires weights { All (λ w. w ≤ MAX_WEIGHT) weights.now }
    ensures tells { IfOk result (λ kept. (x : Input) (ranker : Meaning) → IsInput x → x.table ≡ table.now →
        x.weights ≡ weights.now → Tells x (first_moment x ranker) kept) }
    ensures recorded { IfOk result (λ kept. is_some kept.recording ≡ true) }
{
    let mut kept = Kept::first(alloc, table, weights)?;
    kept.recording = Some(Recording::empty(alloc, table, weights)?);
    Ok(kept)
}

/// The report of a bench of one ranker. The error is want of memory.
fn report_of(
    alloc: Global,
    total: u128,
    arrivals: u128,
    name: Items<u8>,
    replayed: Replayed,
) -> Result<ReplayReport, NoMemory>
    ensures total { IfOk result (λ report. report.total ≡ total) }
    ensures arrivals { IfOk result (λ report. report.arrivals ≡ arrivals) }
    ensures rows { IfOk result (λ report. report.rows ≡ record { index = 1; name = name; result = replayed } ∷ []) }
{
    let mut rows = Vec::new(alloc);
    rows.push(ReplayRow {
        index: 1,
        name,
        result: replayed,
    })?;
    Ok(ReplayReport {
        total,
        arrivals,
        rows: Items::from_vec(rows),
    })
}

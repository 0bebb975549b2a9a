//! The replay of one ranker.
ghost use Rattle.std.specs.Prelude.{◌≡◌, ◌≤◌, ◌^◌, ℕ, All, Err, IfOk, Ok, OnOk, is_some, length};
ghost use Rattle.coflow_units.specs.declared.limits.TheConstants.{MAX_COFLOWS, MAX_OPTION_SLOTS};
ghost use Rattle.epochs.specs.Course.{at_first};
ghost use Rattle.rankers.specs.Meaning.{Meaning};
ghost use Rattle.replays.specs.declared.rows.ReplayFault.TheVariants.{TooMany};
ghost use Rattle.replays.specs.declared.rows.Replayed.TheVariants.{Cost};
ghost use Rattle.replays.specs.Kept.{Ends, Reaches, input_of};
ghost use Rattle.replays.specs.Moments.{Input};
ghost use Rattle.replays.specs.Replayed.{IsInput, IsReplayed, IsTooManyFor};

use crate::acting::act;
use crate::kept::Kept;
use crate::rows::{ReplayFault, Replayed};
use coflow_units::NoMemory;
use epochs::Epochs;
use flow_table::Table;
use rankers::Ranker;
use std::alloc::Global;

/// Serves the coflows of a table as they arrive, by the orders of a ranker: at each multiple of `every` slots the
/// coflows that owe nothing leave, and the ranker is asked for an order of all coflows, with the loads that those
/// present owe. Before each question but the first it is told which coflows ended. Those present are served in its
/// order, and who joins later stands behind them. In each slot the line is served greedily.
///
/// There is a weight, at most 2^32, and an arrival, at most 2^32 slots, for each coflow, and an epoch has from 1 to
/// 2^40 slots. The ranker is dropped at the end. The error is want of memory, or that more than 8192 orders would be
/// published.
pub fn replay(
    alloc: Global,
    table: &Table,
    weights: &[u64],
    arrivals: &[u64],
    every: u64,
    ranker: Box<dyn Ranker>,
) -> Result<Replayed, ReplayFault>
    requires input { IsInput
        record { table = table.now; weights = weights.now; arrivals = arrivals.now; every = every } }
    ensures replayed { IfOk result (λ replayed. IsReplayed
        record { table = table.now; weights = weights.now; arrivals = arrivals.now; every = every }
        (meaning ranker) replayed) }
    ensures too_many { (count : ℕ) → result ≡ Err (TooMany count) → IsTooManyFor
        record { table = table.now; weights = weights.now; arrivals = arrivals.now; every = every }
        (meaning ranker) count }
{
    let mut course = course_of(alloc, arrivals, every)?;
    let mut kept = Kept::first(alloc, table, weights)?;
    let mut ranker = ranker;
    serve(alloc, table, weights, &mut course, &mut kept, &mut ranker)
}

/// The course over coflows that arrive at these times, before the first action. The error is want of memory.
pub(crate) fn course_of(alloc: Global, arrivals: &[u64], every: u64) -> Result<Epochs, NoMemory>
    requires coflows { length arrivals.now ≤ MAX_COFLOWS }
    requires arrivals_fit { All (λ a. a ≤ 2 ^ 32) arrivals.now }
    requires epoch_some { 1 ≤ every }
    requires epoch_fits { every ≤ MAX_OPTION_SLOTS }
    ensures { IfOk result (λ course. course ≡ at_first arrivals.now every) }
{
    let arrivals = Vec::from_slice(alloc, arrivals)?;
    let course = Epochs::new(alloc, arrivals, every)?;
    Ok(course)
}

/// Carries out one action after another, up to the end of the replay, or to an answer that is no order.
pub(crate) fn serve(
    alloc: Global,
    table: &Table,
    weights: &[u64],
    course: &mut Epochs,
    kept: &mut Kept,
    ranker: &mut Box<dyn Ranker>,
) -> Result<Replayed, ReplayFault>
    requires input { IsInput (input_of table.now weights.now course.old) }
    requires reaches { Reaches (input_of table.now weights.now course.old) (meaning ranker.old) course.old kept.old
        (meaning ranker.old) }
    ensures replayed { IfOk result (λ replayed. IsReplayed (input_of table.now weights.now course.old)
        (meaning ranker.old) replayed) }
    ensures ends { (total : ℕ) → result ≡ Ok (Cost total) →
        Ends (input_of table.now weights.now course.old) (meaning ranker.old) kept.new }
    ensures recorded { OnOk result (is_some kept.new.recording ≡ is_some kept.old.recording) }
    ensures too_many { (count : ℕ) → result ≡ Err (TooMany count) →
        IsTooManyFor (input_of table.now weights.now course.old) (meaning ranker.old) count }
{
    'actions: loop {
        let action = course.next(kept.progress.time, &kept.progress.owed);
        if let Some(replayed) = act(alloc, table, weights, kept, ranker, action)? {
            return Ok(replayed);
        }
    }
}

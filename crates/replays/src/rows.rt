//! The rows of a bench of rankers.
ghost use Rattle.std.specs.Prelude.{◌≡◌, ◌<◌, ◌≤◌, ◌^◌, ℕ, [], ◌∷◌, All, Contains, Err, IfOk, OnOk, drop, length, map};
ghost use Rattle.rankers.specs.Meaning.{Meaning};
ghost use Rattle.report_text.specs.Compared.{IsName};
ghost use Rattle.replays.specs.declared.rows.ReplayFault.TheVariants.{NoMemory as OutOfMemory, TooMany};
ghost use Rattle.replays.specs.declared.rows.ReplayRow.{ReplayRow};
ghost use Rattle.replays.specs.Moments.{Input};
ghost use Rattle.replays.specs.Replayed.{AreRowsFrom, IsCutOff, IsInput, IsTooManyFor, StopsAt};

use crate::replaying::replay;
use coflow_units::{Items, NoMemory};
use flow_table::Table;
use rankers::Ranker;
use std::alloc::{AllocFailed, Global};

/// One row: a ranker by its place on the bench, from 1, its name, and what its replay comes to.
#[derive(Drop)]
pub struct ReplayRow {
    pub index: u32,
    pub name: Items<u8>,
    pub result: Replayed,
}

/// What the replay of a ranker comes to.
#[derive(Clone, Copy, Debug, PartialEq, Eq)]
pub enum Replayed {
    /// Each answer was an order of the coflows: the sum of weight times completion, in slots.
    Cost(u128),
    /// One was none: the number of its publishing, from 1, and the first place, from 1, whose number is not a coflow's
    /// or stood earlier.
    Unfit { epoch: u32, place: u32 },
}

/// Why there are no rows.
#[derive(Clone, Copy, Debug, PartialEq, Eq)]
pub enum ReplayFault {
    NoMemory,
    /// More orders would be published than may be. This would have been the number of the next one.
    TooMany { count: u64 },
}

impl From<NoMemory> for ReplayFault {
    ghost use Rattle.std.specs.Prelude.{◌≡◌};
    ghost use Rattle.replays.specs.declared.rows.ReplayFault.TheVariants.{NoMemory};

    ghost from_gives = { λ _ e. e ≡ NoMemory };

    fn from(_error: NoMemory) -> ReplayFault {
        ReplayFault::NoMemory
    }
}

impl<T: Drop> From<AllocFailed<T>> for ReplayFault {
    ghost use Rattle.std.specs.Prelude.{◌≡◌};
    ghost use Rattle.replays.specs.declared.rows.ReplayFault.TheVariants.{NoMemory};

    ghost from_gives = { λ _ e. e ≡ NoMemory };

    fn from(_error: AllocFailed<T>) -> ReplayFault {
        ReplayFault::NoMemory
    }
}

/// A row for each ranker of a bench, from its own replay alone. There is a weight, at most 2^32, and an arrival, at
/// most 2^32 slots, for each coflow of the table; an epoch has `every` slots, from 1 to 2^40; and there are fewer than
/// 2^32 rankers.
///
/// Each ranker in turn is taken off the bench, replayed and dropped, so on success the bench is empty. The error is
/// want of memory, or that a replay would publish more than 8192 orders. Then the rankers that were not reached are
/// still there, as they were and in their order. The ranker whose replay would publish too many is the last one that
/// was taken off. After either error the replay of each but the last one that was taken off came to something.
pub fn replay_all(
    alloc: Global,
    table: &Table,
    weights: &[u64],
    arrivals: &[u64],
    every: u64,
    bench: &mut Vec<Box<dyn Ranker>>,
) -> Result<Vec<ReplayRow>, ReplayFault>
    requires input { IsInput
        record { table = table.now; weights = weights.now; arrivals = arrivals.now; every = every } }
    requires few { length bench.old.items < 2 ^ 32 }
    ensures rows { IfOk result (λ rows. AreRowsFrom
        record { table = table.now; weights = weights.now; arrivals = arrivals.now; every = every } 1
        (map (λ b. meaning b) bench.old.items) rows.items) }
    ensures names { IfOk result (λ rows. All (λ (row : ReplayRow). IsName row.name) rows.items) }
    ensures empty { OnOk result (bench.new.items ≡ []) }
    ensures left { (reached : ℕ) × (bench.new.items ≡ drop reached bench.old.items) }
    ensures too_many { (count : ℕ) → result ≡ Err (TooMany count) →
        (ranker : Meaning) × Contains (map (λ b. meaning b) bench.old.items) ranker × IsTooManyFor
        record { table = table.now; weights = weights.now; arrivals = arrivals.now; every = every } ranker count }
    ensures stops { (count : ℕ) → result ≡ Err (TooMany count) → StopsAt
        record { table = table.now; weights = weights.now; arrivals = arrivals.now; every = every } count
        (map (λ b. meaning b) bench.old.items) (map (λ b. meaning b) bench.new.items) }
    ensures cut_off { result ≡ Err OutOfMemory → IsCutOff
        record { table = table.now; weights = weights.now; arrivals = arrivals.now; every = every }
        (map (λ b. meaning b) bench.old.items) (map (λ b. meaning b) bench.new.items) }
{
    let mut rows = Vec::new(alloc);
    let mut index = 0;
    'rankers: while !bench.is_empty() {
        let ranker = take_first(bench);
        index += 1;
        let name = name_of(alloc, &ranker)?;
        let result = replay(alloc, table, weights, arrivals, every, ranker)?;
        rows.push(ReplayRow {
            index,
            name,
            result,
        })?;
    }
    Ok(rows)
}

/// Takes the first ranker off the bench.
fn take_first(bench: &mut Vec<Box<dyn Ranker>>) -> Box<dyn Ranker>
    requires { 0 < length bench.old.items }
    ensures { bench.old.items ≡ result ∷ bench.new.items }
{
    bench.remove(0)
}

/// The name of a ranker.
pub(crate) fn name_of(alloc: Global, ranker: &Box<dyn Ranker>) -> Result<Items<u8>, NoMemory>
    ensures name { IfOk result (λ name. name ≡ (meaning ranker.now).name) }
    ensures letters { IfOk result IsName }
{
    let name = Vec::from_slice(alloc, ranker.name().as_bytes())?;
    Ok(Items::from_vec(name))
}

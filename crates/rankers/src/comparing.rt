//! The rows of a bench of rankers.
ghost use Rattle.std.specs.Prelude.{◌≡◌, ◌<◌, ◌≤◌, ◌^◌, ℕ, [], ◌∷◌, All, IfOk, OnOk, drop, length, map, take};
ghost use Rattle.coflow_units.specs.declared.limits.TheConstants.{MAX_WEIGHT};
ghost use Rattle.flow_table.specs.Table.{instance_of};
ghost use Rattle.rankers.specs.FactsTold.{IsFactsOf};
ghost use Rattle.rankers.specs.Rounds.{IsRowsFrom};

use crate::facts::Facts;
use crate::ranker::Ranker;
use crate::rounds::rounds_of;
use crate::row::Row;
use coflow_units::NoMemory;
use flow_table::Table;
use std::alloc::Global;

/// The rows of the rankers of a bench, two for each: what its first answer is worth, and its second one. The facts are
/// those of the table with the weights, and there are fewer than 2^32 rankers.
///
/// Each ranker in turn is asked; where its answer has each coflow once, it is told the completions in the schedule that
/// serves it, by completion and then by number; then it is asked again, and dropped. So on success the bench is empty,
/// and a row depends on its own ranker and the facts alone. The error is want of memory: the rankers that were asked
/// are gone, and those that were not reached are still on the bench, as they were and in their order.
pub fn compare(
    alloc: Global,
    table: &Table,
    weights: &[u64],
    facts: &Facts,
    bench: &mut Vec<Box<dyn Ranker>>,
) -> Result<Vec<Row>, NoMemory>
    requires count { length weights.now ≡ length table.now.ids }
    requires weights { All (λ w. w ≤ MAX_WEIGHT) weights.now }
    requires facts { IsFactsOf table.now weights.now facts.now }
    requires few { length bench.old.items < 2 ^ 32 }
    ensures rows { IfOk result (λ rows. IsRowsFrom (instance_of table.now weights.now) facts.now 1
        (map (λ b. meaning b) bench.old.items) rows.items) }
    ensures empty { OnOk result (bench.new.items ≡ []) }
    ensures left { (reached : ℕ) × (bench.new.items ≡ drop reached bench.old.items) ×
        All (λ b. answered b facts.now) (take reached bench.old.items) }
{
    let mut room = vec![in alloc; 0u32; table.coflows() as usize]?;
    let order = room.as_mut_slice();
    let mut rows = Vec::new(alloc);
    let mut index = 0;
    'rankers: while !bench.is_empty() {
        let ranker = take_first(bench);
        index += 1;
        let rounds = rounds_of(alloc, table, weights, facts, ranker, order)?;
        rows.push(Row {
            index,
            round: 1,
            result: rounds.first,
        })?;
        rows.push(Row {
            index,
            round: 2,
            result: rounds.second,
        })?;
    }
    Ok(rows)
}

/// Takes the first ranker off the bench.
pub(crate) fn take_first(bench: &mut Vec<Box<dyn Ranker>>) -> Box<dyn Ranker>
    requires { 0 < length bench.old.items }
    ensures { bench.old.items ≡ result ∷ bench.new.items }
{
    bench.remove(0)
}

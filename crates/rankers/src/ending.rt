//! What came of the second answers of rankers.
ghost use Rattle.std.specs.Prelude.{◌≡◌, IfOk, length, map};
ghost use Rattle.flow_table.specs.Table.{instance_of};
ghost use Rattle.rankers.specs.Ends.{AreSecondEnds, IsSecondEnds};
ghost use Rattle.rankers.specs.FactsTold.{coflows_in};

use crate::comparing::take_first;
use crate::facts::Facts;
use crate::ranker::Ranker;
use crate::reporting::name_of;
use crate::rounds::{ask, serve_and_tell};
use crate::scoring::{Came, serve};
use coflow_units::{Items, NoMemory};
use flow_table::Table;
use std::alloc::Global;

/// A ranker by its name, and what came of its second answer.
#[derive(Drop)]
pub struct Ended {
    pub name: Items<u8>,
    pub came: Came,
}

/// What came of the second answer of each ranker of a bench, in its order. The facts are those of the table.
///
/// Each ranker in turn is asked; where its answer has each coflow once, it is told the completions in the schedule that
/// serves it, by completion and then by number; then it is asked again, and dropped. The error is want of memory.
pub fn second_ends(
    alloc: Global,
    table: &Table,
    facts: &Facts,
    bench: Vec<Box<dyn Ranker>>,
) -> Result<Vec<Ended>, NoMemory>
    requires { coflows_in facts.now ≡ length table.now.ids }
    ensures { IfOk result (λ rows. AreSecondEnds (instance_of table.now facts.now.weights) facts.now
        (map (λ b. meaning b) bench.items) rows.items) }
{
    let mut bench = bench;
    let mut room = vec![in alloc; 0u32; table.coflows() as usize]?;
    let order = room.as_mut_slice();
    let mut rows = Vec::new(alloc);
    while !bench.is_empty() {
        let ranker = take_first(&mut bench);
        let name = name_of(alloc, &ranker)?;
        let came = came_of(alloc, table, facts, ranker, order)?;
        rows.push(Ended { name, came })?;
    }
    Ok(rows)
}

/// What came of the second answer of a ranker, which is dropped. `order` has one place for each coflow, for its
/// answers.
fn came_of(
    alloc: Global,
    table: &Table,
    facts: &Facts,
    ranker: Box<dyn Ranker>,
    order: &mut [u32],
) -> Result<Came, NoMemory>
    requires facts { coflows_in facts.now ≡ length table.now.ids }
    requires order { length order.old ≡ length table.now.ids }
    ensures { IfOk result (IsSecondEnds (instance_of table.now facts.now.weights) facts.now (meaning ranker)) }
{
    let mut ranker = ranker;
    ask(&mut ranker, facts, order);
    let earlier = Vec::from_slice(alloc, order)?;
    let first = serve_and_tell(alloc, table, &mut ranker, order)?;
    ask(&mut ranker, facts, order);
    if &*order == earlier.as_slice() {
        return Ok(first);
    }
    let second = serve(alloc, table, order)?;
    Ok(second)
}

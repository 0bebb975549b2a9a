//! The weights of the coflows of a trace.
ghost use Rattle.std.specs.Prelude.{◌≡◌, ◌≤◌, ◌^◌, ℕ, List, IfOk, length, map, nat_eq, unwrap_or};
ghost use Rattle.coflow_units.specs.declared.limits.TheConstants.{MAX_TEXT};
ghost use Rattle.coflow_units.specs.declared.trace.CoflowLine.{CoflowLine};
ghost use Rattle.indexmap.specs.IndexMap.{get};
ghost use Rattle.text_fields.specs.Numbers.{AreIds};
ghost use Rattle.weights.specs.Checks.{Answers};
ghost use Rattle.coflow_units.specs.Trace.{ids_of};
ghost use Rattle.weights.specs.Weights.{IsSameIds, text_checks, weights_of};

use crate::fault::WeightsFault;
use crate::lines::given_weights;
use coflow_units::{CoflowLine, Items, NoMemory, Trace};
use indexmap::{IndexMap, IndexSet};
use std::alloc::Global;

/// Reads the weights of the coflows of a trace from a text of at most 2^26 bytes. Each line with fields has two: the id
/// of a coflow and its weight, from 1 to 2^32. The answer has a weight for each coflow, by number. A coflow whose id no
/// line has gets the weight 1.
///
/// A text that is not so is refused, with the first fault in reading order. Lines are read one after another. In a line
/// these are looked at in turn: the form of field 1 (`BadLine`), that a coflow has this id (`UnknownId`), that no
/// earlier line has it (`DuplicateId`), the form of field 2 (`BadLine`), its range (`Limit` of `Weight`), and that
/// there is no third field (`BadLine`). `NoMemory` may come in place of any answer.
pub fn read_weights(alloc: Global, bytes: &[u8], trace: &Trace) -> Result<Items<u64>, WeightsFault>
    requires { length bytes.now ≤ MAX_TEXT }
    ensures { Answers (text_checks bytes.now trace.now.coflows)
        (λ w. w ≡ weights_of bytes.now trace.now.coflows) result }
{
    let coflows = trace.coflows.as_slice();
    let known = known_ids(alloc, coflows)?;
    let given = given_weights(alloc, bytes, &known)?;
    let weights = weights_by_number(alloc, coflows, &given)?;
    Ok(Items::from_vec(weights))
}

/// The ids of the coflows.
fn known_ids(alloc: Global, coflows: &[CoflowLine]) -> Result<IndexSet<u32>, NoMemory>
    ensures { IfOk result (λ s. IsSameIds s.keys (ids_of coflows.now) × AreIds s.keys) }
{
    let mut known = IndexSet::<u32>::new(alloc);
    for coflow in coflows {
        known.insert(coflow.id)?;
    }
    Ok(known)
}

/// The weight of an id.
fn weight_for(given: &IndexMap<u32, u64>, id: u32) -> u64
    ensures { result ≡ unwrap_or (get nat_eq given.now id) 1 }
{
    match given.get(&id) {
        Some(weight) => *weight,
        None => 1,
    }
}

/// The weight of each coflow, by number.
fn weights_by_number(
    alloc: Global,
    coflows: &[CoflowLine],
    given: &IndexMap<u32, u64>,
) -> Result<Vec<u64>, NoMemory>
    ensures { IfOk result (λ w. w.items ≡
        map (λ (x : CoflowLine). unwrap_or (get nat_eq given.now x.id) 1) coflows.now) }
{
    let mut weights = Vec::new(alloc);
    for coflow in coflows {
        weights.push(weight_for(given, coflow.id))?;
    }
    Ok(weights)
}

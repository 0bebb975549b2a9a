//! The two rounds of a ranker.
ghost use Rattle.std.specs.Prelude.{◌≡◌, ◌<◌, ◌≤◌, ◌^◌, ℕ, All, IfOk, List, OnOk, length, map};
ghost use Rattle.std.specs.List.{range_with_len};
ghost use Rattle.coflow_units.specs.declared.fabric.Flow.{Flow};
ghost use Rattle.coflow_units.specs.Completion.{completion};
ghost use Rattle.coflow_units.specs.declared.limits.TheConstants.{MAX_WEIGHT};
ghost use Rattle.flow_table.specs.Table.{IsTable, instance_of};
ghost use Rattle.rankers.specs.FactsTold.{coflows_in};
ghost use Rattle.rankers.specs.Meaning.{after_note, after_notes, after_question, answer_of};
ghost use Rattle.rankers.specs.ByKey.{key_in};
ghost use Rattle.rankers.specs.Rounds.{IsRounds, IsToldOf, after_completions};
ghost use Rattle.rankers.specs.Scores.{HasEach, IsCame, IsScore};

use crate::by_key::fill_by_key;
use crate::facts::Facts;
use crate::ranker::Ranker;
use crate::row::Scored;
use crate::scoring::{Came, score, score_of, serve};
use coflow_units::NoMemory;
use flow_table::Table;
use std::alloc::Global;

/// What the two answers of a ranker are worth.
#[derive(Clone, Copy)]
pub struct Rounds {
    pub first: Scored,
    pub second: Scored,
}

/// Asks the ranker, tells it what came of its answer where that is an order, and asks it again. Then the ranker is
/// dropped. The facts are those of the table with the weights, and `order` has one place for each coflow, for its
/// answers.
pub fn rounds_of(
    alloc: Global,
    table: &Table,
    weights: &[u64],
    facts: &Facts,
    ranker: Box<dyn Ranker>,
    order: &mut [u32],
) -> Result<Rounds, NoMemory>
    requires count { length weights.now ≡ length table.now.ids }
    requires weights { All (λ w. w ≤ MAX_WEIGHT) weights.now }
    requires facts { coflows_in facts.now ≡ length table.now.ids }
    requires order { length order.old ≡ length table.now.ids }
    ensures rounds { IfOk result (λ rounds.
        IsRounds (instance_of table.now weights.now) facts.now (meaning ranker) rounds.first rounds.second) }
    ensures answered { answered ranker facts.now }
{
    let mut ranker = ranker;
    ask(&mut ranker, facts, order);
    let earlier = Vec::from_slice(alloc, order)?;
    let first = score_and_tell(alloc, table, weights, &mut ranker, order)?;
    ask(&mut ranker, facts, order);
    let second = score_after(alloc, table, weights, &earlier, first, order)?;
    Ok(Rounds { first, second })
}

/// Asks the ranker.
pub(crate) fn ask(ranker: &mut Box<dyn Ranker>, facts: &Facts, order: &mut [u32])
    requires { length order.old ≡ coflows_in facts.now }
    ensures answer { order.new ≡ answer_of (meaning ranker.old) facts.now }
    ensures asked { meaning ranker.new ≡ after_question (meaning ranker.old) facts.now }
    ensures answered { answered ranker.old facts.now }
{
    ranker.rank(facts, order);
}

/// What the answer in `order` is worth; where it is an order of the coflows, the ranker is told the completions of the
/// schedule that serves it. Afterwards `order` is free for another answer.
fn score_and_tell(
    alloc: Global,
    table: &Table,
    weights: &[u64],
    ranker: &mut Box<dyn Ranker>,
    order: &mut [u32],
) -> Result<Scored, NoMemory>
    requires count { length weights.now ≡ length table.now.ids }
    requires weights { All (λ w. w ≤ MAX_WEIGHT) weights.now }
    requires order { length order.old ≡ length table.now.ids }
    ensures score { IfOk result (λ scored. IsScore (instance_of table.now weights.now) order.old scored) }
    ensures told { OnOk result
        (IsToldOf (instance_of table.now weights.now) order.old (meaning ranker.old) (meaning ranker.new)) }
{
    let came = serve_and_tell(alloc, table, ranker, order)?;
    Ok(score_of(weights, &came))
}

/// What comes of the answer in `order`; where it is an order of the coflows, the ranker is told the completions of the
/// schedule that serves it. Afterwards `order` is free for another answer. The error is want of memory.
pub(crate) fn serve_and_tell(
    alloc: Global,
    table: &Table,
    ranker: &mut Box<dyn Ranker>,
    order: &mut [u32],
) -> Result<Came, NoMemory>
    requires { length order.old ≡ length table.now.ids }
    ensures came { IfOk result (λ came. (weights : List ℕ) →
        IsCame (instance_of table.now weights) order.old came) }
    ensures told { OnOk result ((weights : List ℕ) →
        IsToldOf (instance_of table.now weights) order.old (meaning ranker.old) (meaning ranker.new)) }
    ensures each { IfOk result (HasEach (length table.now.ids)) }
    ensures table { IsTable table.now }
{
    let came = serve(alloc, table, order)?;
    if let Came::Ends(ends) = &came {
        tell(ends.as_slice(), ranker, order);
    }
    Ok(came)
}

/// What the answer in `order` is worth, where an earlier answer was worth so much: the same answer is not served again.
fn score_after(
    alloc: Global,
    table: &Table,
    weights: &[u64],
    earlier: &[u32],
    worth: Scored,
    order: &[u32],
) -> Result<Scored, NoMemory>
    requires count { length weights.now ≡ length table.now.ids }
    requires weights { All (λ w. w ≤ MAX_WEIGHT) weights.now }
    requires order { length order.now ≡ length table.now.ids }
    requires worth { IsScore (instance_of table.now weights.now) earlier.now worth }
    ensures { IfOk result (λ scored. IsScore (instance_of table.now weights.now) order.now scored) }
{
    if order == earlier {
        return Ok(worth);
    }
    let scored = score(alloc, table, weights, order)?;
    Ok(scored)
}

/// Tells the ranker the completion of each coflow, which `ends` has by number: by completion and then by number.
/// `order` has one place for each coflow, for that order.
pub(crate) fn tell(ends: &[u64], ranker: &mut Box<dyn Ranker>, order: &mut [u32])
    requires order { length order.old ≡ length ends.now }
    requires few { length ends.now ≤ 2 ^ 32 }
    ensures { (flows : List Flow) (slots : List (List ℕ)) →
        ends.now ≡ map (λ c. completion flows slots c) (range_with_len 0 (length ends.now)) →
        meaning ranker.new ≡ after_completions flows (length ends.now) (meaning ranker.old) slots }
{
    fill_by_key(ends, order);
    tell_each(ends, order, ranker);
}

/// Tells the ranker the ends of coflows in this order.
fn tell_each(ends: &[u64], order: &[u32], ranker: &mut Box<dyn Ranker>)
    requires { All (λ c. c < length ends.now) order.now }
    ensures { meaning ranker.new ≡ after_notes (meaning ranker.old) (key_in ends.now) order.now }
{
    for coflow in order {
        note(ranker, *coflow, ends[*coflow as usize]);
    }
}

/// Tells the ranker the end of a coflow.
fn note(ranker: &mut Box<dyn Ranker>, coflow: u32, slot: u64)
    ensures { meaning ranker.new ≡ after_note (meaning ranker.old) coflow slot }
{
    ranker.note(coflow, slot);
}

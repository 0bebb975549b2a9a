//! What comes of an answer, and what it is worth.
ghost use Rattle.std.specs.Prelude.{◌≡◌, ◌≤◌, ◌^◌, ℕ, false, All, IfOk, List, MatchOption, length};
ghost use Rattle.std.specs.List.{slice_index_or};
ghost use Rattle.coflow_units.specs.declared.limits.TheConstants.{MAX_WEIGHT};
ghost use Rattle.class_rates.specs.Classes.{IsPermutation};
ghost use Rattle.flow_table.specs.Table.{IsTable, TableFacts, instance_of};
ghost use Rattle.rankers.specs.Scores.{HasEach, IsCame, IsFirstUnfit, IsScore};

use crate::row::Scored;
use coflow_units::{Items, NoMemory};
use flow_table::Table;
use schedule_model::{completions, cost_of};
use slot_switch::simulate;
use std::alloc::Global;

/// What came of an answer.
#[derive(Drop)]
pub enum Came {
    /// The answer is an order of the coflows: by number, the slots in which the schedule that serves it completes them.
    Ends(Items<u64>),
    /// It is none: the first place, counted from 1, whose number is not a coflow's or stood earlier.
    Unfit(u32),
}

/// Serves the answer, which has one number for each coflow of the table. The error is want of memory.
pub(crate) fn serve(alloc: Global, table: &Table, order: &[u32]) -> Result<Came, NoMemory>
    requires { length order.now ≡ length table.now.ids }
    ensures came { IfOk result (λ came. (weights : List ℕ) →
        IsCame (instance_of table.now weights) order.now came) }
    ensures each { IfOk result (HasEach (length table.now.ids)) }
    ensures table { IsTable table.now }
{
    let coflows = table.coflows();
    if let Some(place) = first_unfit(alloc, order, coflows)? {
        return Ok(Came::Unfit(place));
    }
    let schedule = simulate(alloc, table, order)?;
    let ends = completions(alloc, table.flows(), coflows, &schedule)?;
    Ok(Came::Ends(Items::from_vec(ends)))
}

/// What the answer is worth.
pub(crate) fn score(
    alloc: Global,
    table: &Table,
    weights: &[u64],
    order: &[u32],
) -> Result<Scored, NoMemory>
    requires count { length weights.now ≡ length table.now.ids }
    requires weights { All (λ w. w ≤ MAX_WEIGHT) weights.now }
    requires order { length order.now ≡ length table.now.ids }
    ensures { IfOk result (λ scored. IsScore (instance_of table.now weights.now) order.now scored) }
{
    let came = serve(alloc, table, order)?;
    Ok(score_of(weights, &came))
}

/// What an answer is worth, by what came of it. There is a weight for each coflow.
pub(crate) fn score_of(weights: &[u64], came: &Came) -> Scored
    requires each { HasEach (length weights.now) came.now }
    requires few { length weights.now ≤ 2 ^ 32 }
    requires weights { All (λ w. w ≤ MAX_WEIGHT) weights.now }
    ensures { (t : TableFacts) (order : List ℕ) → length weights.now ≡ length t.ids →
        IsCame (instance_of t weights.now) order came.now → IsScore (instance_of t weights.now) order result }
{
    match came {
        Came::Ends(ends) => Scored::Cost(cost_of(weights, ends.as_slice())),
        Came::Unfit(place) => Scored::Unfit(*place),
    }
}

/// The first place, counted from 1, whose number is that of no coflow, or stood earlier. There are as many places as
/// coflows.
pub fn first_unfit(alloc: Global, order: &[u32], coflows: u32) -> Result<Option<u32>, NoMemory>
    requires { length order.now ≡ coflows }
    ensures { IfOk result (λ place.
        MatchOption place (IsPermutation order.now) (λ k. IsFirstUnfit coflows order.now k)) }
{
    let mut seen = vec![in alloc; false; order.len()]?;
    for place in 0..order.len() {
        let number = order[place];
        if number >= coflows {
            return Ok(Some(place as u32 + 1));
        }
        let repeated = is_marked(&seen, number);
        if repeated {
            return Ok(Some(place as u32 + 1));
        }
        seen[number as usize] = true;
    }
    Ok(None)
}

/// The number is marked; one past the end of the marks is not.
fn is_marked(marks: &[bool], number: u32) -> bool
    ensures { result ≡ slice_index_or marks.now number false }
{
    match marks.get(number as usize) {
        Some(mark) => *mark,
        None => false,
    }
}

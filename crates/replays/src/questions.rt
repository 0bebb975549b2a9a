//! The questions that a ranker is asked.
ghost use Rattle.std.specs.Prelude.{◌≡◌, ◌<◌, ◌≤◌, ℕ, true, if◌then◌else◌, All, IfOk, OnOk, MatchOption, length, slice_index, sum};
ghost use Rattle.coflow_units.specs.declared.limits.TheConstants.{MAX_UNITS, MAX_WEIGHT};
ghost use Rattle.coflow_units.specs.Flows.{coflow_of};
ghost use Rattle.class_rates.specs.Classes.{IsPermutation};
ghost use Rattle.epochs.specs.Course.{is_marked};
ghost use Rattle.rankers.specs.FactsTold.{FactsTold, IsFacts, IsFactsOf, coflows_in, with_left};
ghost use Rattle.rankers.specs.Meaning.{after_question, answer_of};
ghost use Rattle.rankers.specs.Scores.{IsFirstUnfit};
ghost use Rattle.replays.specs.Kept.{FitsTable};

use bssi_order::Bssi;
use coflow_units::NoMemory;
use flow_table::Table;
use rankers::{Facts, Ranker};
use std::alloc::Global;

/// What questions take: the facts that are told, room for the order of all coflows, a mark `true` for each coflow, and
/// a place for each in the answer. And how many orders were published.
#[derive(Drop)]
pub(crate) struct Questions {
    pub(crate) facts: Facts,
    pub(crate) ordering: Bssi,
    pub(crate) everyone: Vec<bool>,
    pub(crate) answer: Vec<u32>,
    pub(crate) published: u32,
}

impl Questions {
    /// Takes what questions about the coflows of a table take. The error is want of memory.
    pub(crate) fn about(
        alloc: Global,
        table: &Table,
        weights: &[u64],
    ) -> Result<Questions, NoMemory>
        requires count { length weights.now ≡ length table.now.ids }
        requires weights { All (λ w. w ≤ MAX_WEIGHT) weights.now }
        ensures fits { IfOk result (λ q. FitsTable table.now weights.now q) }
        ensures none { IfOk result (λ q. q.published ≡ 0) }
    {
        let facts = Facts::of(alloc, table, weights)?;
        let ordering = Bssi::with_room(alloc, table.coflows(), table.ports())?;
        let everyone = vec![in alloc; true; table.coflows() as usize]?;
        let answer = vec![in alloc; 0u32; table.coflows() as usize]?;
        Ok(Questions {
            facts,
            ordering,
            everyone,
            answer,
            published: 0,
        })
    }

    /// Asks the ranker, where the flows of a table have so many units left and these coflows are present.
    pub(crate) fn ask(
        &mut self,
        table: &Table,
        left: &[u64],
        present: &[bool],
        ranker: &mut Box<dyn Ranker>,
    )
        requires fits { FitsTable table.now self.old.facts.weights self.old }
        requires each_left { length left.now ≡ length table.now.flows }
        requires units { sum left.now ≤ MAX_UNITS }
        requires each_present { length present.now ≡ length table.now.ids }
        ensures fits { FitsTable table.now self.old.facts.weights self.new }
        ensures published { self.new.published ≡ self.old.published }
        ensures facts { IsFacts self.new.facts }
        ensures told { (present_left : ℕ → ℕ) → ((f : ℕ) → f < length table.now.flows → present_left f ≡
            (if is_marked present.now (coflow_of table.now.flows f) then slice_index left.now f else 0)) →
            IsFactsOf (with_left table.now present_left) self.old.facts.weights self.new.facts }
        ensures answer { self.new.answer.items ≡ answer_of (meaning ranker.old) self.new.facts }
        ensures asked { meaning ranker.new ≡ after_question (meaning ranker.old) self.new.facts }
    {
        self.facts
            .refill(table, left, present, &self.everyone, &mut self.ordering);
        ask(ranker, &self.facts, &mut self.answer);
    }
}

/// Asks the ranker.
fn ask(ranker: &mut Box<dyn Ranker>, facts: &Facts, answer: &mut [u32])
    requires { length answer.old ≡ coflows_in facts.now }
    ensures answer { answer.new ≡ answer_of (meaning ranker.old) facts.now }
    ensures asked { meaning ranker.new ≡ after_question (meaning ranker.old) facts.now }
    ensures facts { IsFacts facts.now }
{
    let _coflows = facts.coflows();
    ranker.rank(facts, answer);
}

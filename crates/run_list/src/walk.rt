//! A walk over a list of runs.
ghost use Rattle.std.specs.Prelude.{◌≡◌, ◌+◌, ◌<◌, ◌≤◌, ℕ, [], IfOk, length, take, vec_capacity};
ghost use Rattle.std.specs.List.{slice_index_or};
ghost use Rattle.std.specs.List.Sorted.{IsStrictlyIncreasing};
ghost use Rattle.coflow_units.specs.declared.plan.Run.{Run};
ghost use Rattle.run_list.specs.Kept.{HasRoom, IsTold, IsTurn, runs_of, told};
ghost use Rattle.run_list.specs.Runs.{Walked, flows_before, without};

use crate::changes::{append, toggle};
use crate::mark::Mark;
use crate::turnover::{Turnover, compare};
use coflow_units::NoMemory;
use std::alloc::Global;
use std::marker::Model;
use std::mem;

/// A walk over a list of runs, from the first to the last.
#[derive(Drop)]
pub struct Walk<'a> {
    marks: &'a [Mark],
    numbers: &'a [u32],
    entered: usize,
    /// How many of the numbers tell the runs that were entered.
    read: usize,
    /// The flows of the run that was entered last, and then numbers without meaning.
    flows: Vec<u32>,
    /// How many flows that run has.
    count: usize,
    /// Room for the flows of the next run.
    next: Vec<u32>,
    /// What changed with the run that was entered last.
    turnover: Turnover,
}

impl<'a> Model for Walk<'a> {
    ghost use Rattle.std.specs.Prelude.{[], take};
    ghost use Rattle.run_list.specs.Kept.{IsWalk, runs_of};
    ghost use Rattle.run_list.specs.Runs.{Walked};

    ghost Value = { Walked };

    ghost view = { λ s. record { runs = runs_of [] s.marks.now s.numbers.now; entered = s.entered } };

    ghost invariant = { λ s. IsWalk s.marks.now s.numbers.now s.entered s.read s.flows.items s.count s.next.items
        s.turnover };
}

impl<'a> Walk<'a> {
    /// A walk over the runs that the marks and the numbers tell, before the first of them.
    pub(crate) fn over(
        alloc: Global,
        marks: &'a [Mark],
        numbers: &'a [u32],
        widest: usize,
    ) -> Result<Walk<'a>, NoMemory>
        requires { IsTold marks.now numbers.now widest }
        ensures { IfOk result (λ walk. walk ≡ record { runs = runs_of [] marks.now numbers.now; entered = 0 }) }
    {
        let flows = vec![in alloc; 0; widest]?;
        let next = vec![in alloc; 0; widest]?;
        let turnover = Turnover::with_room(alloc, widest)?;
        Ok(Walk {
            marks,
            numbers,
            entered: 0,
            read: 0,
            flows,
            count: 0,
            next,
            turnover,
        })
    }

    /// Enters the next run, and answers how many slots it has.
    pub fn enter(&mut self) -> u64
        requires { self.old.entered < length self.old.runs }
        ensures runs { self.new.runs ≡ self.old.runs }
        ensures entered { self.new.entered ≡ self.old.entered + 1 }
        ensures slots { (r : Run) → result ≡ (slice_index_or self.old.runs self.old.entered r).length }
    {
        let mark = self.marks[self.entered];
        let end = self.read + mark.size as usize;
        let numbers = &self.numbers[self.read..end];
        self.count = follow(
            &mut self.flows,
            self.count,
            mark.whole,
            numbers,
            &mut self.next,
            &mut self.turnover,
        );
        self.read = end;
        self.entered += 1;
        mark.slots
    }

    /// The flows of the run that was entered last, ascending. Before the first run there are none.
    pub fn flows(&self) -> &[u32]
        ensures flows { (k : ℕ) (r : Run) → k + 1 ≡ self.now.entered →
            result.now ≡ (slice_index_or self.now.runs k r).flows }
        ensures before { self.now.entered ≡ 0 → result.now ≡ [] }
        ensures ascending { IsStrictlyIncreasing result.now }
    {
        &self.flows[..self.count]
    }

    /// The flows of the run before that the run entered last does not serve any longer, ascending. Before the first run
    /// there are none.
    pub fn gone(&self) -> &[u32]
        ensures flows { (k : ℕ) (r : Run) → k + 1 ≡ self.now.entered →
            result.now ≡ without (flows_before self.now.runs k) (slice_index_or self.now.runs k r).flows }
        ensures before { self.now.entered ≡ 0 → result.now ≡ [] }
        ensures ascending { IsStrictlyIncreasing result.now }
    {
        &self.turnover.gone
    }

    /// The flows that the run entered last serves and the run before it does not, ascending. Before the first run there
    /// are none.
    pub fn come(&self) -> &[u32]
        ensures flows { (k : ℕ) (r : Run) → k + 1 ≡ self.now.entered →
            result.now ≡ without (slice_index_or self.now.runs k r).flows (flows_before self.now.runs k) }
        ensures before { self.now.entered ≡ 0 → result.now ≡ [] }
        ensures ascending { IsStrictlyIncreasing result.now }
    {
        &self.turnover.come
    }
}

/// Replaces the flows of a run, with which `flows` begins, by those of the next run, and answers how many they are. The
/// numbers are these where they are told whole, and else what changes.
fn follow(
    flows: &mut Vec<u32>,
    count: usize,
    whole: bool,
    numbers: &[u32],
    next: &mut Vec<u32>,
    turnover: &mut Turnover,
) -> usize
    requires held { count ≤ length flows.old.items }
    requires ascending { IsStrictlyIncreasing (take count flows.old.items) }
    requires numbers { IsStrictlyIncreasing numbers.now }
    requires room { length (told (take count flows.old.items) whole numbers.now) ≤ length flows.old.items }
    requires same { length next.old.items ≡ length flows.old.items }
    requires turnover { HasRoom turnover.old (length flows.old.items) (length flows.old.items) }
    ensures told { take result flows.new.items ≡ told (take count flows.old.items) whole numbers.now }
    ensures held { result ≤ length flows.new.items }
    ensures room { length flows.new.items ≡ length flows.old.items }
    ensures same { length next.new.items ≡ length flows.old.items }
    ensures turn { IsTurn turnover.new (take count flows.old.items)
        (told (take count flows.old.items) whole numbers.now) }
    ensures gone_room { vec_capacity turnover.new.gone ≡ vec_capacity turnover.old.gone }
    ensures come_room { vec_capacity turnover.new.come ≡ vec_capacity turnover.old.come }
{
    let before = &flows[..count];
    if whole {
        compare(before, numbers, turnover);
        let count = append(next, 0, numbers);
        mem::swap(flows, next);
        return count;
    }
    let count = toggle(before, numbers, next, turnover);
    mem::swap(flows, next);
    count
}

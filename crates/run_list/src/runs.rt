//! A list of runs.
ghost use Rattle.std.specs.Prelude.{◌≡◌, ◌+◌, ◌<◌, ◌≤◌, ◌++◌, ◌^◌, ◌∷◌, ℕ, [], All, IfOk, OnErr, OnOk, length, slice_set};
ghost use Rattle.std.specs.List.{slice_index_or};
ghost use Rattle.std.specs.List.Sorted.{IsStrictlyIncreasing};
ghost use Rattle.coflow_units.specs.declared.plan.Run.{Run};
ghost use Rattle.run_list.specs.Runs.{IsLast, longer, run_of};

use crate::changes::tell;
use crate::mark::Mark;
use crate::walk::Walk;
use coflow_units::NoMemory;
use std::alloc::Global;
use std::marker::Model;
use std::mem;

/// Runs of equal slots in the order of time, each with the ascending numbers of the flows that it serves.
///
/// Of each run is kept what changes from the flows of the run before it, or its flows where these are no more.
#[derive(Drop)]
pub struct Runs {
    marks: Vec<Mark>,
    /// The numbers of all runs, one run behind the other.
    numbers: Vec<u32>,
    /// The flows of the last run.
    last: Vec<u32>,
    /// Room for the flows of the next run.
    spare: Vec<u32>,
    /// The most flows that a run has.
    widest: usize,
    /// One more than the greatest flow, or 0 where there is none.
    bound: u64,
}

impl Model for Runs {
    ghost use Rattle.std.specs.Prelude.{List, []};
    ghost use Rattle.coflow_units.specs.declared.plan.Run.{Run};
    ghost use Rattle.run_list.specs.Kept.{IsKept, runs_of};

    ghost Value = { List Run };

    ghost view = { λ s. runs_of [] s.marks.items s.numbers.items };

    ghost invariant = { λ s. IsKept s.marks.items s.numbers.items s.last.items s.widest s.bound };
}

impl Runs {
    /// No run.
    pub fn new(alloc: Global) -> Runs
        ensures { result ≡ [] }
    {
        Runs {
            marks: Vec::new(alloc),
            numbers: Vec::new(alloc),
            last: Vec::new(alloc),
            spare: Vec::new(alloc),
            widest: 0,
            bound: 0,
        }
    }

    /// How many runs there are.
    pub fn count(&self) -> usize
        ensures { result ≡ length self.now }
    {
        self.marks.len()
    }

    /// How many slots a run has.
    pub fn slots(&self, place: usize) -> u64
        requires { place < length self.now }
        ensures { (r : Run) → result ≡ (slice_index_or self.now place r).length }
    {
        self.marks[place].slots
    }

    /// A number that is above all flows of all runs: one more than the greatest of them, or 0 where no run has a flow.
    pub fn bound(&self) -> u64
        ensures { All (λ (r : Run). All (λ f. f < result) r.flows) self.now }
    {
        self.bound
    }

    /// Whether there is a last run and it serves these flows.
    pub fn ends_with(&self, flows: &[u32]) -> bool
        ensures { IsLast self.now flows.now result }
    {
        if self.marks.is_empty() {
            return false;
        }
        if self.last.as_slice() == flows {
            return true;
        }
        false
    }

    /// Appends a run of so many slots that serves the flows, whose numbers ascend strictly. What it repeats of the run
    /// before it is not kept again.
    ///
    /// `NoMemory` says that there was no room for the run, or that it has 2^32 flows or more, and leaves the list as it
    /// was.
    pub fn push(&mut self, slots: u64, flows: &[u32]) -> Result<(), NoMemory>
        requires { IsStrictlyIncreasing flows.now }
        ensures pushed { OnOk result (self.new ≡ self.old ++ run_of slots flows.now ∷ []) }
        ensures refused { OnErr result (self.new ≡ self.old) }
    {
        // A mark counts its numbers in 32 bits.
        if flows.len() > u32::MAX as usize {
            return Err(NoMemory);
        }
        self.spare.clear();
        self.spare.extend_from_slice(flows)?;
        self.marks.reserve(1)?;
        let mark = tell(&mut self.numbers, slots, &self.last, flows)?;
        self.marks.push_reserved(mark);
        mem::swap(&mut self.last, &mut self.spare);
        self.widest = self.widest.max(flows.len());
        self.bound = self.bound.max(bound_of(flows));
        Ok(())
    }

    /// Adds slots to the last run.
    pub fn lengthen(&mut self, slots: u64)
        requires some { 1 ≤ length self.old }
        requires fits { (k : ℕ) (r : Run) → k + 1 ≡ length self.old →
            (slice_index_or self.old k r).length + slots < 2 ^ 64 }
        ensures { (k : ℕ) (r : Run) → k + 1 ≡ length self.old →
            self.new ≡ slice_set self.old k (longer (slice_index_or self.old k r) slots) }
    {
        let last = self.marks.len() - 1;
        self.marks[last].slots += slots;
    }

    /// A walk over the runs, before the first of them. It takes room for the most flows that a run has, four times. The
    /// error is want of memory.
    pub fn walk(&self, alloc: Global) -> Result<Walk<'_>, NoMemory>
        ensures { IfOk result (λ walk. walk ≡ record { runs = self.now; entered = 0 }) }
    {
        Walk::over(alloc, &self.marks, &self.numbers, self.widest)
    }
}

/// One more than the last of some ascending numbers, or 0 where there is none.
fn bound_of(numbers: &[u32]) -> u64
    requires { IsStrictlyIncreasing numbers.now }
    ensures { All (λ number. number < result) numbers.now }
{
    match numbers.last() {
        Some(last) => u64::from(*last) + 1,
        None => 0,
    }
}

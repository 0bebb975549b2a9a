//! A schedule as runs of equal slots.
ghost use Rattle.std.specs.Prelude.{◌≡◌, ◌+◌, ◌≤◌, ◌++◌, All, [], OnErr, OnOk, length as count_of, replicate};
ghost use Rattle.coflow_units.specs.declared.limits.TheConstants.{MAX_SLOT};
ghost use Rattle.std.specs.List.Sorted.{IsStrictlyIncreasing};
ghost use Rattle.coflow_units.specs.Schedule.{IsRuns};
ghost use Rattle.schedule_model.specs.RunList.{IsKept, pairs_of, slots_in};

use coflow_units::NoMemory;
use run_list::Runs;
use std::alloc::Global;
use std::marker::Model;

/// A schedule: a list of slots, each an ascending list of flow numbers. It keeps runs of equal slots, and has at most
/// 2^41 - 1 slots.
#[derive(Drop)]
pub struct Schedule {
    runs: Runs,
}

impl Model for Schedule {
    ghost use Rattle.std.specs.Prelude.{ℕ, List};
    ghost use Rattle.schedule_model.specs.RunList.{IsKept, slots_in};

    ghost Value = { List (List ℕ) };

    ghost view = { λ s. slots_in s.runs };

    ghost invariant = { λ s. IsKept s.runs };
}

impl Schedule {
    /// The schedule without slots.
    pub fn new(alloc: Global) -> Schedule
        ensures { result ≡ [] }
    {
        Schedule {
            runs: Runs::new(alloc),
        }
    }

    /// Appends `length` equal slots that hold the flows. A run that is equal to the last one is joined with it.
    ///
    /// The flow numbers ascend strictly. `NoMemory` says that there was no room for the run, and leaves the schedule as
    /// it was.
    pub fn push_run(&mut self, length: u64, flows: &[u32]) -> Result<(), NoMemory>
        requires some { 1 ≤ length }
        requires ascending { IsStrictlyIncreasing flows.now }
        requires short { count_of self.old + length ≤ MAX_SLOT }
        ensures pushed { OnOk result (self.new ≡ self.old ++ replicate length flows.now) }
        ensures refused { OnErr result (self.new ≡ self.old) }
    {
        if self.runs.ends_with(flows) {
            self.runs.lengthen(length);
            return Ok(());
        }
        self.runs.push(length, flows)
    }

    /// The runs of equal slots, in the order of time. No run is empty, and neighbours differ.
    pub fn runs(&self) -> &Runs
        ensures runs { IsRuns self.now (pairs_of result.now) }
        ensures ascending { All IsStrictlyIncreasing self.now }
        ensures short { count_of self.now ≤ MAX_SLOT }
    {
        self.kept()
    }

    /// The runs themselves. It takes no memory.
    pub fn into_runs(self) -> Runs
        ensures runs { IsRuns self (pairs_of result) }
    {
        let Schedule { runs } = self;
        runs
    }

    /// The runs as they are kept.
    pub fn kept(&self) -> &Runs
        ensures slots { slots_in result.now ≡ self.now }
        ensures kept { IsKept result.now }
    {
        &self.runs
    }
}

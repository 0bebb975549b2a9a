//! The line of coflows, and its grants.
ghost use Rattle.std.specs.Prelude.{◌≡◌, ◌+◌, ◌<◌, ◌≤◌, ◌++◌, ◌==◌, ℕ, [], ◌∷◌, true, false, not, All, IfOk, OnOk, List, filter, length, slice_index};
ghost use Rattle.coflow_units.specs.declared.fabric.Flow.{Flow};
ghost use Rattle.coflow_units.specs.Flows.{IsDistinct};
ghost use Rattle.coflow_units.specs.Starts.{IsStarts};
ghost use Rattle.epochs.specs.Course.{is_marked};
ghost use Rattle.matching.specs.Matching.{IsRunLess, IsSettled, listed_in, ports_of, room_of};
ghost use Rattle.replays.specs.Kept.{HasSameRoom};

use coflow_units::NoMemory;
use flow_table::Table;
use matching::Matching;
use std::alloc::Global;

/// The coflows in the order in which they are served, and their grants, which are stale where the line changed since.
#[derive(Drop)]
pub(crate) struct Line {
    pub(crate) coflows: Vec<u32>,
    pub(crate) grants: Matching,
    pub(crate) stale: bool,
}

impl Line {
    /// A line without coflows, with room for all coflows and flows of a table. The error is want of memory.
    pub(crate) fn empty(alloc: Global, table: &Table) -> Result<Line, NoMemory>
        ensures none { IfOk result (λ line. line.coflows.items ≡ []) }
        ensures stale { IfOk result (λ line. line.stale ≡ true) }
        ensures ports { IfOk result (λ line. ports_of line.grants ≡ table.now.ports) }
        ensures room { IfOk result (λ line. room_of line.grants ≡ length table.now.flows) }
    {
        let coflows = Vec::with_capacity(alloc, table.coflows() as usize)?;
        let grants = Matching::with_room(alloc, table.flows().len() as u32, table.ports())?;
        Ok(Line {
            coflows,
            grants,
            stale: true,
        })
    }

    /// A coflow stands last. The error is want of memory.
    pub(crate) fn join(&mut self, coflow: u32) -> Result<(), NoMemory>
        ensures line { OnOk result (self.new.coflows.items ≡ self.old.coflows.items ++ coflow ∷ []) }
        ensures stale { OnOk result (self.new.stale ≡ true) }
        ensures grants { OnOk result (self.new.grants ≡ self.old.grants) }
    {
        self.coflows.push(coflow)?;
        self.stale = true;
        Ok(())
    }

    /// A coflow stands there no longer.
    pub(crate) fn leave(&mut self, coflow: u32)
        ensures line { self.new.coflows.items ≡ filter (λ c. not (c == coflow)) self.old.coflows.items }
        ensures stale { self.new.stale ≡ true }
        ensures grants { self.new.grants ≡ self.old.grants }
    {
        self.coflows.retain(|other| *other != coflow);
        self.stale = true;
    }

    /// The coflows of an order that are present stand in its order. The error is want of memory.
    pub(crate) fn replace(&mut self, order: &[u32], present: &[bool]) -> Result<(), NoMemory>
        requires { All (λ c. c < length present.now) order.now }
        ensures line { OnOk result (self.new.coflows.items ≡ filter (is_marked present.now) order.now) }
        ensures stale { OnOk result (self.new.stale ≡ true) }
        ensures grants { OnOk result (self.new.grants ≡ self.old.grants) }
    {
        self.coflows.clear();
        push_present(&mut self.coflows, order, present)?;
        self.stale = true;
        Ok(())
    }

    /// Grants, where the grants are stale.
    pub(crate) fn grant(&mut self, table: &Table, left: &[u64])
        requires distinct { IsDistinct self.old.coflows.items }
        requires coflows { All (λ c. c < length table.now.ids) self.old.coflows.items }
        requires left { length left.now ≡ length table.now.flows }
        requires ports { ports_of self.old.grants ≡ table.now.ports }
        requires room { length table.now.flows ≤ room_of self.old.grants }
        requires settled { self.old.stale ≡ false →
            IsSettled table.now.flows self.old.coflows.items (λ f. slice_index left.now f) self.old.grants }
        ensures settled { IsSettled table.now.flows self.old.coflows.items (λ f. slice_index left.now f)
            self.new.grants }
        ensures line { self.new.coflows ≡ self.old.coflows }
        ensures stale { self.new.stale ≡ false }
        ensures room { HasSameRoom self.old.grants self.new.grants }
    {
        if self.stale {
            self.grants
                .begin(table.flows(), table.starts(), &self.coflows, left);
            self.stale = false;
        }
    }

    /// So many slots pass, in which the grants are served.
    pub(crate) fn pass(&mut self, slots: u64)
        ensures settled { (flows : List Flow) (line : List ℕ) (left lower : ℕ → ℕ) →
            IsSettled flows line left self.old.grants → IsRunLess left lower (listed_in self.old.grants) slots →
            IsSettled flows line lower self.new.grants }
        ensures line { self.new.coflows ≡ self.old.coflows }
        ensures stale { self.new.stale ≡ self.old.stale }
        ensures room { HasSameRoom self.old.grants self.new.grants }
    {
        self.grants.take_run(slots);
        self.grants.repair();
    }
}

/// Appends the coflows of an order that are present.
fn push_present(line: &mut Vec<u32>, order: &[u32], present: &[bool]) -> Result<(), NoMemory>
    requires { All (λ c. c < length present.now) order.now }
    ensures { OnOk result (line.new.items ≡ line.old.items ++ filter (is_marked present.now) order.now) }
{
    for coflow in order {
        if present[*coflow as usize] {
            line.push(*coflow)?;
        }
    }
    Ok(())
}

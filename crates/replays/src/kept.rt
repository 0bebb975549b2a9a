//! What is kept of a replay from action to action.
ghost use Rattle.std.specs.Prelude.{◌≡◌, ◌<◌, ◌≤◌, ℕ, All, IfOk, None, OnOk, is_some, length};
ghost use Rattle.coflow_units.specs.declared.limits.TheConstants.{MAX_WEIGHT};
ghost use Rattle.epochs.specs.declared.action.Action.TheVariants.{Register, Run, Skip, Withdraw};
ghost use Rattle.rankers.specs.Meaning.{Meaning};
ghost use Rattle.replays.specs.Moments.{DoesNext, Input, IsServedFor, Moment, first_moment, joined_at, left_the_line};
ghost use Rattle.replays.specs.Moments.{served_at};
ghost use Rattle.replays.specs.Replayed.{IsInput};
ghost use Rattle.replays.specs.Kept.{IsAt, MayDo, MayDoOf, Tells};
ghost use Rattle.std.specs.Prelude.{[], ◌-◌};

use crate::line::Line;
use crate::news::Marks;
use crate::progress::{Progress, no_progress, serve};
use crate::questions::Questions;
use crate::recording::{Recording, record_run};
use coflow_units::NoMemory;
use flow_table::Table;
use std::alloc::Global;

/// What coflows owe, which of them are present, the line that is served, what questions take, and what is recorded, if
/// anything is.
#[derive(Drop)]
pub(crate) struct Kept {
    pub(crate) progress: Progress,
    pub(crate) marks: Marks,
    pub(crate) line: Line,
    pub(crate) questions: Questions,
    pub(crate) recording: Option<Recording>,
}

impl Kept {
    /// What is kept before the first action, where nothing is recorded. The error is want of memory.
    pub(crate) fn first(alloc: Global, table: &Table, weights: &[u64]) -> Result<Kept, NoMemory>
        requires count { length weights.now ≡ length table.now.ids }
        requires weights { All (λ w. w ≤ MAX_WEIGHT) weights.now }
        ensures tells { IfOk result (λ kept. (x : Input) (ranker : Meaning) → IsInput x → x.table ≡ table.now →
            x.weights ≡ weights.now → Tells x (first_moment x ranker) kept) }
        ensures nothing { IfOk result (λ kept. kept.recording ≡ None) }
    {
        let progress = no_progress(alloc, table)?;
        let marks = Marks::none(alloc, table.coflows())?;
        let line = Line::empty(alloc, table)?;
        let questions = Questions::about(alloc, table, weights)?;
        Ok(Kept {
            progress,
            marks,
            line,
            questions,
            recording: None,
        })
    }

    /// A coflow joins. The error is want of memory.
    pub(crate) fn join(&mut self, coflow: u32) -> Result<(), NoMemory>
        requires may { MayDo self.old (Register coflow) }
        ensures tells { OnOk result ((x : Input) (m : Moment) → IsAt x m self.old → DoesNext x m (Register coflow) →
            Tells x (joined_at m coflow) self.new) }
        ensures recorded { self.new.recording ≡ self.old.recording }
    {
        self.line.join(coflow)?;
        self.marks.joined[coflow as usize] = true;
        self.marks.present[coflow as usize] = true;
        Ok(())
    }

    /// A coflow leaves.
    pub(crate) fn leave(&mut self, coflow: u32)
        requires may { MayDo self.old (Withdraw coflow) }
        ensures tells { (x : Input) (m : Moment) → IsAt x m self.old → DoesNext x m (Withdraw coflow) →
            Tells x (left_the_line m coflow) self.new }
        ensures recorded { self.new.recording ≡ self.old.recording }
    {
        self.line.leave(coflow);
        self.marks.present[coflow as usize] = false;
    }

    /// The grants of the line are served for at most so many slots, until one of them has no units left. The error is
    /// want of memory.
    pub(crate) fn run(&mut self, table: &Table, most: u64) -> Result<(), NoMemory>
        requires may { MayDoOf table.now self.old (Run most) }
        ensures tells { OnOk result ((x : Input) (m : Moment) → IsAt x m self.old → x.table ≡ table.now →
            DoesNext x m (Run most) → (next : Moment) × IsServedFor x m most next × Tells x next self.new) }
        ensures recorded { OnOk result (is_some self.new.recording ≡ is_some self.old.recording) }
    {
        self.line.grant(table, &self.progress.left);
        let slots = most.min(self.line.grants.least_left());
        let flows = self.line.grants.flows();
        serve(&mut self.progress, table.flows(), flows, slots);
        record_run(&mut self.recording, slots, flows)?;
        self.line.pass(slots);
        Ok(())
    }

    /// Slots pass in which nobody is served, up to the one before this slot. The error is want of memory.
    pub(crate) fn skip(&mut self, to: u64) -> Result<(), NoMemory>
        requires may { MayDo self.old (Skip to) }
        ensures tells { OnOk result ((x : Input) (m : Moment) → IsAt x m self.old → DoesNext x m (Skip to) →
            Tells x (served_at m (to - 1 - self.old.progress.time) []) self.new) }
        ensures recorded { OnOk result (is_some self.new.recording ≡ is_some self.old.recording) }
    {
        record_run(&mut self.recording, to - 1 - self.progress.time, &[])?;
        self.progress.time = to - 1;
        Ok(())
    }
}

//! A printed journal that is read line by line.
ghost use Rattle.std.specs.Prelude.{◌≡◌, ◌↔◌, [], IfOk, IsTrue};
ghost use Rattle.live_text.specs.declared.draft.Stage.TheVariants.{First as AtFirst, Lines as AtLines};
ghost use Rattle.live_text.specs.Draft.{ComesBehind, Finishes, IsDraft, Takes, draft_lines, live_of};
ghost use Rattle.live_text.specs.Text.{mark};

use crate::fields::mark_of;
use crate::lines::{entry_of, is_first, order_of, pull_of};
use crate::value::{EntryLine, Live, PullLine};
use coflow_units::{Items, MAX_SLOT, NoMemory};
use report_text::{is_end, run_of};
use run_list::Runs;
use std::alloc::Global;

/// The line that comes next: the first one, one behind it, or none.
#[derive(Clone, Copy)]
pub(crate) enum Stage {
    First,
    Lines,
    Done,
}

/// What was read of a printed journal, and how many slots its runs have.
#[derive(Drop)]
pub(crate) struct Draft {
    pub stage: Stage,
    pub entries: Vec<EntryLine>,
    pub orders: Vec<Items<u32>>,
    pub pulls: Vec<PullLine>,
    pub runs: Runs,
    pub slots: u64,
}

impl Draft {
    /// Nothing was read.
    pub(crate) fn new(alloc: Global) -> Draft
        ensures draft { IsDraft result }
        ensures none { draft_lines result ≡ [] }
    {
        Draft {
            stage: Stage::First,
            entries: Vec::new(alloc),
            orders: Vec::new(alloc),
            pulls: Vec::new(alloc),
            runs: Runs::new(alloc),
            slots: 0,
        }
    }

    /// The printed journal whose lines were read, where the last line was read.
    pub(crate) fn into_live(self) -> Option<Live>
        ensures { Finishes self result }
    {
        match self.stage {
            Stage::Done => Some(self.live()),
            _ => None,
        }
    }

    /// What was read, as a printed journal.
    fn live(self) -> Live
        ensures { result ≡ live_of self }
    {
        let Draft {
            entries,
            orders,
            pulls,
            runs,
            ..
        } = self;
        Live {
            entries: Items::from_vec(entries),
            orders: Items::from_vec(orders),
            pulls: Items::from_vec(pulls),
            runs,
        }
    }

    /// Takes the next line, or tells that no text has it here. The error is want of memory.
    pub(crate) fn accept(&mut self, alloc: Global, line: &[u8]) -> Result<bool, NoMemory>
        requires { IsDraft self.old }
        ensures { IfOk result (λ taken. Takes self.old self.new line.now taken) }
    {
        match self.stage {
            Stage::First => Ok(self.take_first(line)),
            Stage::Lines => self.take_line(alloc, line),
            Stage::Done => Ok(false),
        }
    }

    /// Takes the first line.
    fn take_first(&mut self, line: &[u8]) -> bool
        requires draft { IsDraft self.old }
        requires stage { self.old.stage ≡ AtFirst }
        ensures { Takes self.old self.new line.now result }
    {
        if !is_first(line) {
            return false;
        }
        self.stage = Stage::Lines;
        true
    }

    /// Takes a line behind the first one. The fourth byte tells which line it is.
    fn take_line(&mut self, alloc: Global, line: &[u8]) -> Result<bool, NoMemory>
        requires draft { IsDraft self.old }
        requires stage { self.old.stage ≡ AtLines }
        ensures { IfOk result (λ taken. Takes self.old self.new line.now taken) }
    {
        match mark_of(line) {
            b'r' => self.take_entry(line),
            b'e' => self.take_order(alloc, line),
            b'l' => self.take_pull(line),
            b' ' => self.take_run(alloc, line),
            _ => Ok(self.take_end(line)),
        }
    }

    /// Takes the line of the next entry.
    fn take_entry(&mut self, line: &[u8]) -> Result<bool, NoMemory>
        requires draft { IsDraft self.old }
        requires stage { self.old.stage ≡ AtLines }
        requires kind { mark line.now ≡ 114 }
        ensures { IfOk result (λ taken. Takes self.old self.new line.now taken) }
    {
        if !self.no_orders_yet() {
            return Ok(false);
        }
        let position = self.entries.len() as u64 + 1;
        let Some(entry) = entry_of(line, position) else {
            return Ok(false);
        };
        self.entries.push(entry)?;
        Ok(true)
    }

    /// No order was read, and nothing that stands behind the orders.
    fn no_orders_yet(&self) -> bool
        ensures { IsTrue result ↔
            ((self.now.orders.items ≡ []) × (self.now.pulls.items ≡ []) × (self.now.runs ≡ [])) }
    {
        self.orders.is_empty() && self.pulls.is_empty() && self.runs.count() == 0
    }

    /// No pull was read, and nothing that stands behind the pulls.
    fn no_pulls_yet(&self) -> bool
        ensures { IsTrue result ↔ ((self.now.pulls.items ≡ []) × (self.now.runs ≡ [])) }
    {
        self.pulls.is_empty() && self.runs.count() == 0
    }

    /// No run was read.
    fn no_runs_yet(&self) -> bool
        ensures { IsTrue result ↔ (self.now.runs ≡ []) }
    {
        self.runs.count() == 0
    }

    /// Takes the line of the order of the next version.
    fn take_order(&mut self, alloc: Global, line: &[u8]) -> Result<bool, NoMemory>
        requires draft { IsDraft self.old }
        requires stage { self.old.stage ≡ AtLines }
        requires kind { mark line.now ≡ 101 }
        ensures { IfOk result (λ taken. Takes self.old self.new line.now taken) }
    {
        if !self.no_pulls_yet() {
            return Ok(false);
        }
        let version = self.orders.len() as u64 + 1;
        let Some(ids) = order_of(alloc, line, version)? else {
            return Ok(false);
        };
        self.orders.push(ids)?;
        Ok(true)
    }

    /// Takes the line of the next pull.
    fn take_pull(&mut self, line: &[u8]) -> Result<bool, NoMemory>
        requires draft { IsDraft self.old }
        requires stage { self.old.stage ≡ AtLines }
        requires kind { mark line.now ≡ 108 }
        ensures { IfOk result (λ taken. Takes self.old self.new line.now taken) }
    {
        if !self.no_runs_yet() {
            return Ok(false);
        }
        let Some(pull) = pull_of(line) else {
            return Ok(false);
        };
        if !comes_behind(&self.pulls, pull) {
            return Ok(false);
        }
        self.pulls.push(pull)?;
        Ok(true)
    }

    /// Takes the line of the next run.
    fn take_run(&mut self, alloc: Global, line: &[u8]) -> Result<bool, NoMemory>
        requires draft { IsDraft self.old }
        requires stage { self.old.stage ≡ AtLines }
        requires kind { mark line.now ≡ 32 }
        ensures { IfOk result (λ taken. Takes self.old self.new line.now taken) }
    {
        let Some(run) = run_of(alloc, line)? else {
            return Ok(false);
        };
        if run.length > MAX_SLOT - self.slots {
            return Ok(false);
        }
        if self.runs.ends_with(run.flows.as_slice()) {
            return Ok(false);
        }
        self.slots += run.length;
        self.runs.push(run.length, run.flows.as_slice())?;
        Ok(true)
    }

    /// Takes the last line.
    fn take_end(&mut self, line: &[u8]) -> bool
        requires draft { IsDraft self.old }
        requires stage { self.old.stage ≡ AtLines }
        requires entry { mark line.now ≡ 114 → ⊥ }
        requires order { mark line.now ≡ 101 → ⊥ }
        requires pull { mark line.now ≡ 108 → ⊥ }
        requires run { mark line.now ≡ 32 → ⊥ }
        ensures { Takes self.old self.new line.now result }
    {
        if !is_end(line) {
            return false;
        }
        self.stage = Stage::Done;
        true
    }
}

/// Whether the pull stands behind the last one, by client and then by line, or there is none.
fn comes_behind(pulls: &[PullLine], pull: PullLine) -> bool
    ensures { ComesBehind pulls.now pull result }
{
    match pulls.last() {
        Some(last) => last.client < pull.client
            || last.client == pull.client && last.line < pull.line,
        None => true,
    }
}

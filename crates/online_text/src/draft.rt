//! An online run that is read line by line.
ghost use Rattle.std.specs.Prelude.{◌≡◌, ◌+◌, [], IfOk, None, length};
ghost use Rattle.report_text.specs.Readers.{IsRunOf};
ghost use Rattle.online_text.specs.declared.draft.Stage.TheVariants.{First as AtFirst, Epochs as AtEpochs, Places as AtPlaces, Done as AtDone, Release as AtRelease, Runs as AtRuns, Ended};
ghost use Rattle.online_text.specs.Draft.{Finishes, IsDraft, Takes, online_of};
ghost use Rattle.online_text.specs.Readers.{IsDoneOf, IsPlaceOf, IsReleaseOf, IsTimeOf};

use crate::parts::{done_of, is_first, place_of, release_of, rises, time_of};
use crate::value::{DoneLine, Epoch, Online, OnlinePlace, ReleaseLine};
use coflow_units::{Items, MAX_SLOT, NoMemory};
use report_text::{is_end, run_of, total_of};
use run_list::Runs;
use std::alloc::Global;
use std::mem;

/// The line that comes next: the first one; that of a publishing or what follows on the publishings; that of a place of
/// the order or the bound; that of a completion or the cost; that of a place of the released certificate or the total;
/// that of a run or the last one; or none.
#[derive(Clone, Copy, Debug, PartialEq, Eq)]
pub(crate) enum Stage {
    First,
    Epochs,
    Places,
    Done,
    Release,
    Runs,
    Ended,
}

/// What was read of an online run. The time and the places are those of a publishing whose bound was not read.
#[derive(Drop)]
pub(crate) struct Draft {
    pub stage: Stage,
    pub epochs: Vec<Epoch>,
    pub time: u64,
    pub places: Vec<OnlinePlace>,
    pub done: Vec<DoneLine>,
    pub cost: u128,
    pub release: Vec<ReleaseLine>,
    pub total: u128,
    pub runs: Runs,
    pub slots: u64,
}

impl Draft {
    /// Nothing was read.
    pub(crate) fn new(alloc: Global) -> Draft
        ensures draft { IsDraft result }
        ensures first { result.stage ≡ AtFirst }
    {
        Draft {
            stage: Stage::First,
            epochs: Vec::new(alloc),
            time: 0,
            places: Vec::new(alloc),
            done: Vec::new(alloc),
            cost: 0,
            release: Vec::new(alloc),
            total: 0,
            runs: Runs::new(alloc),
            slots: 0,
        }
    }

    /// The online run whose lines were read, where the last line was read.
    pub(crate) fn into_online(self) -> Option<Online>
        ensures { Finishes self result }
    {
        match self.stage {
            Stage::Ended => Some(self.online()),
            _ => None,
        }
    }

    /// What was read, as an online run.
    fn online(self) -> Online
        requires { self.stage ≡ Ended }
        ensures { result ≡ online_of self }
    {
        let Draft {
            epochs,
            done,
            cost,
            release,
            total,
            runs,
            ..
        } = self;
        Online {
            epochs: Items::from_vec(epochs),
            done: Items::from_vec(done),
            cost,
            release: Items::from_vec(release),
            total,
            runs,
        }
    }

    /// Takes the next line, or tells that no online run has it here.
    pub(crate) fn accept(&mut self, alloc: Global, line: &[u8]) -> Result<bool, NoMemory>
        requires { IsDraft self.old }
        ensures { IfOk result (λ taken. Takes self.old self.new line.now taken) }
    {
        match self.stage {
            Stage::First => Ok(self.take_first(line)),
            Stage::Epochs => self.take_epoch(line),
            Stage::Places => self.take_place(alloc, line),
            Stage::Done => self.take_done(line),
            Stage::Release => self.take_release(line),
            Stage::Runs => self.take_run(alloc, line),
            Stage::Ended => Ok(false),
        }
    }

    /// Takes the first line.
    fn take_first(&mut self, line: &[u8]) -> bool
        requires draft { IsDraft self.old }
        requires stage { self.old.stage ≡ AtFirst }
        ensures { Takes self.old self.new line.now result }
    {
        if !is_first(line) {
            return false;
        }
        self.stage = Stage::Epochs;
        true
    }

    /// Takes the line of the next publishing, or what follows on the publishings.
    fn take_epoch(&mut self, line: &[u8]) -> Result<bool, NoMemory>
        requires draft { IsDraft self.old }
        requires stage { self.old.stage ≡ AtEpochs }
        ensures { IfOk result (λ taken. Takes self.old self.new line.now taken) }
    {
        let Some(time) = time_of(line) else {
            self.stage = Stage::Done;
            return self.take_done(line);
        };
        if !rises(&self.epochs, time) {
            return Ok(false);
        }
        self.time = time;
        self.stage = Stage::Places;
        Ok(true)
    }

    /// Takes the line of the next place of the order, or that of the bound.
    fn take_place(&mut self, alloc: Global, line: &[u8]) -> Result<bool, NoMemory>
        requires draft { IsDraft self.old }
        requires stage { self.old.stage ≡ AtPlaces }
        ensures { IfOk result (λ taken. Takes self.old self.new line.now taken) }
    {
        let number = self.places.len() as u128 + 1;
        let Some(place) = place_of(line, number) else {
            return self.take_bound(alloc, line);
        };
        self.places.push(place)?;
        Ok(true)
    }

    /// Takes the line of the bound, where the line is that of no place.
    fn take_bound(&mut self, alloc: Global, line: &[u8]) -> Result<bool, NoMemory>
        requires draft { IsDraft self.old }
        requires stage { self.old.stage ≡ AtPlaces }
        requires no_place { IsPlaceOf (length self.old.places.items + 1) line.now None }
        ensures { IfOk result (λ taken. Takes self.old self.new line.now taken) }
    {
        let Some(bound) = total_of(line, b"bound") else {
            return Ok(false);
        };
        let places = mem::replace(&mut self.places, Vec::new(alloc));
        self.epochs.push(Epoch {
            time: self.time,
            places: Items::from_vec(places),
            bound,
        })?;
        self.stage = Stage::Epochs;
        Ok(true)
    }

    /// Takes the line of the next completion, or that of the cost.
    fn take_done(&mut self, line: &[u8]) -> Result<bool, NoMemory>
        requires draft { IsDraft self.old }
        requires stage { self.old.stage ≡ AtDone }
        ensures { IfOk result (λ taken. Takes self.old self.new line.now taken) }
    {
        let Some(done) = done_of(line) else {
            return Ok(self.take_cost(line));
        };
        self.done.push(done)?;
        Ok(true)
    }

    /// Takes the line of the cost, where the line is that of no completion.
    fn take_cost(&mut self, line: &[u8]) -> bool
        requires draft { IsDraft self.old }
        requires stage { self.old.stage ≡ AtDone }
        requires no_done { IsDoneOf line.now None }
        ensures { Takes self.old self.new line.now result }
    {
        let Some(cost) = total_of(line, b"cost") else {
            return false;
        };
        self.cost = cost;
        self.stage = Stage::Release;
        true
    }

    /// Takes the line of the next place of the released certificate, or that of the total.
    fn take_release(&mut self, line: &[u8]) -> Result<bool, NoMemory>
        requires draft { IsDraft self.old }
        requires stage { self.old.stage ≡ AtRelease }
        ensures { IfOk result (λ taken. Takes self.old self.new line.now taken) }
    {
        let number = self.release.len() as u128 + 1;
        let Some(place) = release_of(line, number) else {
            return Ok(self.take_total(line));
        };
        self.release.push(place)?;
        Ok(true)
    }

    /// Takes the line of the total, where the line is that of no place.
    fn take_total(&mut self, line: &[u8]) -> bool
        requires draft { IsDraft self.old }
        requires stage { self.old.stage ≡ AtRelease }
        requires no_release { IsReleaseOf (length self.old.release.items + 1) line.now None }
        ensures { Takes self.old self.new line.now result }
    {
        let Some(total) = total_of(line, b"total") else {
            return false;
        };
        self.total = total;
        self.stage = Stage::Runs;
        true
    }

    /// Takes the line of the next run, or the last one.
    fn take_run(&mut self, alloc: Global, line: &[u8]) -> Result<bool, NoMemory>
        requires draft { IsDraft self.old }
        requires stage { self.old.stage ≡ AtRuns }
        ensures { IfOk result (λ taken. Takes self.old self.new line.now taken) }
    {
        let Some(run) = run_of(alloc, line)? else {
            return Ok(self.take_end(line));
        };
        if run.length > MAX_SLOT - self.slots {
            return Ok(false);
        }
        if self.runs.ends_with(run.flows.as_slice()) {
            return Ok(false);
        }
        self.slots += run.length;
        self.runs.push(run.length, run.flows.as_slice())?;
        Ok(true)
    }

    /// Takes the last line, where the line is that of no run.
    fn take_end(&mut self, line: &[u8]) -> bool
        requires draft { IsDraft self.old }
        requires stage { self.old.stage ≡ AtRuns }
        requires no_run { IsRunOf line.now None }
        ensures { Takes self.old self.new line.now result }
    {
        if !is_end(line) {
            return false;
        }
        self.stage = Stage::Ended;
        true
    }
}

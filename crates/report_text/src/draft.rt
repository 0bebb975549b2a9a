//! A report that is read line by line.
ghost use Rattle.std.specs.Prelude.{◌≡◌, ◌+◌, ◌++◌, [], IfOk, None, OnOk, length};
ghost use Rattle.report_text.specs.declared.draft.Stage.TheVariants.{Version as AtVersion, Places as AtPlaces, Slack as AtSlack, Cost as AtCost, Runs as AtRuns, Done as AtDone};
ghost use Rattle.report_text.specs.Draft.{Finishes, IsDraft, Takes, draft_lines, report_of};
ghost use Rattle.report_text.specs.Readers.{IsPlaceOf, IsRunOf, weights_list};

use crate::parts::{is_end, place_of, read_run, total_of, version_of};
use crate::value::{PlaceLine, Report};
use coflow_units::{Items, MAX_SLOT, NoMemory};
use run_list::Runs;
use std::alloc::Global;

/// The line that comes next: the first one, that of a place or the bound, those of the slack and the cost, that of a
/// run or the last one, or none.
#[derive(Clone, Copy)]
pub(crate) enum Stage {
    Version,
    Places,
    Slack,
    Cost,
    Runs,
    Done,
}

/// What was read of a report.
#[derive(Drop)]
pub(crate) struct Draft {
    pub stage: Stage,
    pub weighed: bool,
    pub places: Vec<PlaceLine>,
    pub weights: Vec<u64>,
    pub bound: u128,
    pub slack: u128,
    pub cost: u128,
    pub runs: Runs,
    pub slots: u64,
}

impl Draft {
    /// Nothing was read.
    pub(crate) fn new(alloc: Global) -> Draft
        ensures draft { IsDraft result }
        ensures none { draft_lines result ≡ [] }
    {
        Draft {
            stage: Stage::Version,
            weighed: false,
            places: Vec::new(alloc),
            weights: Vec::new(alloc),
            bound: 0,
            slack: 0,
            cost: 0,
            runs: Runs::new(alloc),
            slots: 0,
        }
    }

    /// The report whose lines were read, where the last line was read.
    pub(crate) fn into_report(self) -> Option<Report>
        ensures { Finishes self result }
    {
        match self.stage {
            Stage::Done => Some(self.report()),
            _ => None,
        }
    }

    /// What was read, as a report.
    fn report(self) -> Report
        ensures { result ≡ report_of self }
    {
        let Draft {
            weighed,
            places,
            weights,
            bound,
            slack,
            cost,
            runs,
            ..
        } = self;
        Report {
            places: Items::from_vec(places),
            weights: if weighed {
                Some(Items::from_vec(weights))
            } else {
                None
            },
            bound,
            slack,
            cost,
            runs,
        }
    }

    /// Takes the next line, or tells that no report has it here. The list is room for the flows of a run.
    pub(crate) fn accept(&mut self, line: &[u8], flows: &mut Vec<u32>) -> Result<bool, NoMemory>
        requires { IsDraft self.old }
        ensures { IfOk result (λ taken. Takes self.old self.new line.now taken) }
    {
        match self.stage {
            Stage::Version => Ok(self.take_version(line)),
            Stage::Places => self.take_place(line),
            Stage::Slack => Ok(self.take_slack(line)),
            Stage::Cost => Ok(self.take_cost(line)),
            Stage::Runs => self.take_run(line, flows),
            Stage::Done => Ok(false),
        }
    }

    /// Takes the first line.
    fn take_version(&mut self, line: &[u8]) -> bool
        requires draft { IsDraft self.old }
        requires stage { self.old.stage ≡ AtVersion }
        ensures { Takes self.old self.new line.now result }
    {
        let Some(weighed) = version_of(line) else {
            return false;
        };
        self.weighed = weighed;
        self.stage = Stage::Places;
        true
    }

    /// Takes the line of the next place, or that of the bound.
    fn take_place(&mut self, line: &[u8]) -> Result<bool, NoMemory>
        requires draft { IsDraft self.old }
        requires stage { self.old.stage ≡ AtPlaces }
        ensures { IfOk result (λ taken. Takes self.old self.new line.now taken) }
    {
        let number = self.places.len() as u128 + 1;
        let Some((place, weight)) = place_of(line, number, self.weighed) else {
            return Ok(self.take_bound(line));
        };
        self.places.push(place)?;
        push_weight(&mut self.weights, weight)?;
        Ok(true)
    }

    /// Takes the line of the bound, where the line is that of no place.
    fn take_bound(&mut self, line: &[u8]) -> bool
        requires draft { IsDraft self.old }
        requires stage { self.old.stage ≡ AtPlaces }
        requires no_place { IsPlaceOf (length self.old.places.items + 1) self.old.weighed line.now None }
        ensures { Takes self.old self.new line.now result }
    {
        let Some(bound) = total_of(line, b"bound") else {
            return false;
        };
        self.bound = bound;
        self.stage = Stage::Slack;
        true
    }

    /// Takes the line of the slack.
    fn take_slack(&mut self, line: &[u8]) -> bool
        requires draft { IsDraft self.old }
        requires stage { self.old.stage ≡ AtSlack }
        ensures { Takes self.old self.new line.now result }
    {
        let Some(slack) = total_of(line, b"slack") else {
            return false;
        };
        self.slack = slack;
        self.stage = Stage::Cost;
        true
    }

    /// Takes the line of the cost.
    fn take_cost(&mut self, line: &[u8]) -> bool
        requires draft { IsDraft self.old }
        requires stage { self.old.stage ≡ AtCost }
        ensures { Takes self.old self.new line.now result }
    {
        let Some(cost) = total_of(line, b"cost") else {
            return false;
        };
        self.cost = cost;
        self.stage = Stage::Runs;
        true
    }

    /// Takes the line of a run, or the last one.
    fn take_run(&mut self, line: &[u8], flows: &mut Vec<u32>) -> Result<bool, NoMemory>
        requires draft { IsDraft self.old }
        requires stage { self.old.stage ≡ AtRuns }
        ensures { IfOk result (λ taken. Takes self.old self.new line.now taken) }
    {
        let Some(length) = read_run(line, flows)? else {
            return Ok(self.take_end(line));
        };
        if length > MAX_SLOT - self.slots {
            return Ok(false);
        }
        if self.runs.ends_with(flows) {
            return Ok(false);
        }
        self.slots += length;
        self.runs.push(length, flows)?;
        Ok(true)
    }

    /// Takes the last line, where the line is that of no run.
    fn take_end(&mut self, line: &[u8]) -> bool
        requires draft { IsDraft self.old }
        requires stage { self.old.stage ≡ AtRuns }
        requires no_run { IsRunOf line.now None }
        ensures { Takes self.old self.new line.now result }
    {
        if !is_end(line) {
            return false;
        }
        self.stage = Stage::Done;
        true
    }
}

/// Keeps the weight of a place, where there is one.
fn push_weight(weights: &mut Vec<u64>, weight: Option<u64>) -> Result<(), NoMemory>
    ensures { OnOk result (weights.new.items ≡ weights.old.items ++ weights_list weight) }
{
    if let Some(weight) = weight {
        weights.push(weight)?;
    }
    Ok(())
}

//! A script that is being read.
ghost use Rattle.std.specs.Prelude.{◌≡◌, ◌++◌, [], ◌∷◌, List, OnOk, IfOk, max};
ghost use Rattle.workload.specs.Script.{client_of, put_step};
ghost use Rattle.workload.specs.Draft.{all_rounds};
ghost use Rattle.workload.specs.declared.script.Round.{Round as RoundFacts};

use crate::line::Step;
use crate::script::{Round, Script, ScriptLine};
use coflow_units::{Items, NoMemory};
use std::alloc::Global;
use std::mem;

/// The greatest client so far, the rounds that have ended, and the commands behind them.
#[derive(Drop)]
pub(crate) struct Draft {
    clients: u32,
    rounds: Vec<Round>,
    lines: Vec<ScriptLine>,
    alloc: Global,
}

impl Draft {
    /// The draft of a script without lines.
    pub(crate) fn new(alloc: Global) -> Draft
        ensures clients { result.clients ≡ 0 }
        ensures rounds { result.rounds.items ≡ [] }
        ensures lines { result.lines.items ≡ [] }
    {
        Draft {
            clients: 0,
            rounds: Vec::new(alloc),
            lines: Vec::new(alloc),
            alloc,
        }
    }

    /// Adds a line.
    pub(crate) fn take(&mut self, step: Step) -> Result<(), NoMemory>
        ensures clients { OnOk result (self.new.clients ≡ max self.old.clients (client_of step)) }
        ensures rounds { OnOk result ((rest : List RoundFacts) →
            all_rounds self.new.rounds.items self.new.lines.items rest
            ≡ all_rounds self.old.rounds.items self.old.lines.items (put_step step rest)) }
    {
        match step {
            Step::Ask(line) => {
                self.clients = self.clients.max(line.client);
                self.lines.push(line)?;
            }
            Step::Ends(end) => self.end_round(end.runs())?,
        }
        Ok(())
    }

    /// Ends the round that is being read.
    fn end_round(&mut self, runs: bool) -> Result<(), NoMemory>
        ensures clients { OnOk result (self.new.clients ≡ self.old.clients) }
        ensures rounds { OnOk result (self.new.rounds.items
            ≡ self.old.rounds.items ++ (record { lines = self.old.lines.items; runs = runs } ∷ [])) }
        ensures lines { OnOk result (self.new.lines.items ≡ []) }
    {
        let lines = mem::replace(&mut self.lines, Vec::new(self.alloc));
        self.rounds.push(Round {
            lines: Items::from_vec(lines),
            runs,
        })?;
        Ok(())
    }

    /// The script.
    pub(crate) fn finish(mut self) -> Result<Script, NoMemory>
        ensures { IfOk result (λ script. script
            ≡ record { clients = self.clients; rounds = all_rounds self.rounds.items self.lines.items [] }) }
    {
        if self.lines.is_empty() {
            return Ok(self.into_script());
        }
        let Ok(()) = self.end_round(false) else {
            drop(self);
            return Err(NoMemory);
        };
        Ok(self.into_script())
    }

    /// The script of the rounds that have ended.
    fn into_script(self) -> Script
        ensures { result ≡ record { clients = self.clients; rounds = self.rounds.items } }
    {
        Script {
            clients: self.clients,
            rounds: Items::from_vec(self.rounds),
        }
    }
}

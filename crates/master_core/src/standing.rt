//! What a master keeps beside its journal, so as not to read it again, and how each command is carried out on it.
ghost use Rattle.std.specs.Prelude.{◌≡◌, ℕ, ◌+◌, ◌^◌, ◌<◌, ◌≤◌, true, false, [], ◌∷◌, None, IfOk, List, MatchOption, length, map};
ghost use Rattle.coflow_units.specs.declared.limits.TheConstants.{MAX_COFLOWS, MAX_PORTS, MAX_WEIGHT};
ghost use Rattle.coflow_units.specs.declared.fabric.Flow.{Flow};
ghost use Rattle.journal.specs.State.{IsOpening, State};
ghost use Rattle.journal.specs.Fold.{start};
ghost use Rattle.journal.specs.Line.{owing};
ghost use Rattle.journal.specs.Answer.{IsInRange};
ghost use Rattle.matching.specs.Matching.{room_of};
ghost use Rattle.master_core.specs.Attendance.{marked};
ghost use Rattle.master_core.specs.Standing.{Follows, IsFit, Tells};
ghost use Rattle.journal.specs.declared.command.Command.TheVariants.{Register, Withdraw, Publish, Pull, Open, Short, Close, Skip, Reweigh};

use crate::ledger::Ledger;
use crate::line::Line;
use crate::orders::Orders;
use crate::roster::Roster;
use crate::runs::Runs;
use crate::search::first_owing;
use coflow_units::{MAX_SLOT, NoMemory};
use flow_table::Table;
use journal::{Command, Opening, Reply};
use std::alloc::Global;

/// What a master keeps beside its journal.
pub struct Standing {
    pub roster: Roster,
    /// The weight of each coflow.
    pub weights: Vec<u64>,
    pub orders: Orders,
    pub line: Line,
    pub ledger: Ledger,
    pub runs: Runs,
    /// The slot with which the next run begins, or with which the open run began.
    pub next: u64,
}

// Written out, since a derived one is proved anew, with those of all that it holds, in each crate that drops such a value.
impl Drop for Standing {
    fn drop(self) {
        let Standing {
            roster: _,
            weights: _,
            orders: _,
            line: _,
            ledger: _,
            runs: _,
            next: _,
        } = self;
    }
}

impl Standing {
    /// What is kept before the first entry. The error is want of memory.
    pub fn new(alloc: Global, opening: &Opening) -> Result<Standing, NoMemory>
        requires { IsOpening opening.now }
        ensures tells { IfOk result (λ x. Tells opening.now (start opening.now) x) }
        ensures fit { IfOk result (λ x. IsFit opening.now x) }
    {
        let table = &opening.table;
        let weights = opening.weights.as_slice().to_vec(alloc)?;
        let Ok(units) = units_kept(alloc, table) else {
            drop(weights);
            return Err(NoMemory);
        };
        let Ok(coflows) = coflows_kept(alloc, table.coflows(), table.ports()) else {
            drop(weights);
            drop(units);
            return Err(NoMemory);
        };
        Ok(Standing::of(coflows, weights, units))
    }

    /// What is kept of coflows, their weights, and what is kept of units, together. The next slot is the first.
    fn of(coflows: (Roster, Orders, Line), weights: Vec<u64>, units: (Ledger, Runs)) -> Standing
        ensures { result ≡ record {
          roster = coflows.0;
          weights = weights;
          orders = coflows.1;
          line = coflows.2;
          ledger = units.0;
          runs = units.1;
          next = 1;
        } }
    {
        let (roster, orders, line) = coflows;
        let (ledger, runs) = units;
        Standing {
            roster,
            weights,
            orders,
            line,
            ledger,
            runs,
            next: 1,
        }
    }

    /// Carries out a command, and answers it. The journal has room for it.
    pub fn carry_out(&mut self, opening: &Opening, command: Command) -> Reply
        requires fit { IsFit opening.now self.old }
        requires in_range { IsInRange opening.now command }
        requires version_fits { self.old.orders.version + 1 < 2 ^ 32 }
        ensures { Follows opening.now command self.old result self.new }
    {
        match command {
            Command::Register(coflow) => self.register(opening, coflow),
            Command::Withdraw(coflow) => self.withdraw(opening, coflow),
            Command::Publish => self.publish(opening),
            Command::Pull(coflow) => self.pull(opening, coflow),
            Command::Open(most) => self.open(opening, most),
            Command::Short(ingress, units) => self.short(opening, ingress, units),
            Command::Close => self.close(opening),
            Command::Skip(to) => self.skip(opening, to),
            Command::Reweigh { coflow, weight } => self.reweigh(opening, coflow, weight),
        }
    }

    fn register(&mut self, opening: &Opening, coflow: u32) -> Reply
        requires fit { IsFit opening.now self.old }
        requires coflow_in { coflow < length opening.now.table.ids }
        ensures { Follows opening.now (Register coflow) self.old result self.new }
    {
        if self.roster.has_joined(coflow) {
            return Reply::Already;
        }
        self.roster.join(coflow);
        self.runs.set_stale();
        Reply::Joined
    }

    fn withdraw(&mut self, opening: &Opening, coflow: u32) -> Reply
        requires fit { IsFit opening.now self.old }
        requires coflow_in { coflow < length opening.now.table.ids }
        ensures { Follows opening.now (Withdraw coflow) self.old result self.new }
    {
        if !self.roster.is_present(coflow) {
            return Reply::NotHere;
        }
        self.roster.leave(coflow);
        self.runs.set_stale();
        Reply::Left
    }

    fn publish(&mut self, opening: &Opening) -> Reply
        requires fit { IsFit opening.now self.old }
        requires version_fits { self.old.orders.version + 1 < 2 ^ 32 }
        ensures { Follows opening.now Publish self.old result self.new }
    {
        if let Some(run) = self.runs.current() {
            return Reply::StillOpen(run.first);
        }
        self.orders.publish(
            opening.table.flows(),
            opening.table.starts(),
            self.ledger.owed_all(),
            &self.weights,
            self.roster.present(),
        );
        self.runs.set_stale();
        Reply::Version(self.orders.version())
    }

    fn pull(&mut self, opening: &Opening, coflow: u32) -> Reply
        requires fit { IsFit opening.now self.old }
        requires coflow_in { coflow < length opening.now.table.ids }
        ensures { Follows opening.now (Pull coflow) self.old result self.new }
    {
        let version = self.orders.version();
        let rank = self.orders.rank(coflow);
        if rank == 0 {
            return Reply::Unranked(version);
        }
        Reply::Rank(version, rank)
    }

    fn open(&mut self, opening: &Opening, most: u64) -> Reply
        requires fit { IsFit opening.now self.old }
        requires some { 1 ≤ most }
        ensures { Follows opening.now (Open most) self.old result self.new }
    {
        if let Some(run) = self.runs.current() {
            return Reply::StillOpen(run.first);
        }
        self.refresh(opening);
        if self.runs.grants_nothing() {
            return Reply::NothingLeft;
        }
        if self.next > MAX_SLOT {
            return Reply::Late(self.next);
        }
        let run = self.runs.begin(self.next, most);
        Reply::Opened(run.first, run.slots, run.count)
    }

    /// Makes the kept grants anew where they are not fresh. No run is open.
    fn refresh(&mut self, opening: &Opening)
        requires fit { IsFit opening.now self.old }
        requires closed { self.old.runs.run ≡ None }
        ensures fit { IsFit opening.now self.new }
        ensures fresh { self.new.runs.fresh ≡ true }
        ensures closed { self.new.runs.run ≡ None }
        ensures tells { (s : State) → Tells opening.now s self.old → Tells opening.now s self.new }
    {
        if self.runs.is_fresh() {
            return;
        }
        self.line.fill(&self.roster, &self.orders);
        self.runs.grant_anew(&opening.table, self.line.coflows(), self.ledger.owed_all());
    }

    /// The first flow, by number, of a present coflow that owes units. None comes exactly where no such flow owes. The
    /// kept grants are fresh: where they are of no flow, no flow is looked at.
    fn first_flow_owing(&self, opening: &Opening) -> Option<u32>
        requires fit { IsFit opening.now self.now }
        requires fresh { self.now.runs.fresh ≡ true }
        ensures { (s : State) → Tells opening.now s self.now →
            MatchOption result (owing opening.now s ≡ []) (λ f. (rest : List ℕ) × (owing opening.now s ≡ f ∷ rest)) }
    {
        if self.runs.grants_nothing() {
            return None;
        }
        first_owing(&opening.table, &self.roster, &self.ledger)
    }

    fn short(&mut self, opening: &Opening, ingress: u32, units: u64) -> Reply
        requires fit { IsFit opening.now self.old }
        requires ingress_in { ingress < opening.now.table.ports }
        ensures { Follows opening.now (Short ingress units) self.old result self.new }
    {
        match self.runs.note(ingress, units) {
            Some(noted) => Reply::Noted(noted),
            None => Reply::NotGranted(ingress),
        }
    }

    fn close(&mut self, opening: &Opening) -> Reply
        requires fit { IsFit opening.now self.old }
        ensures { Follows opening.now Close self.old result self.new }
    {
        let flows = opening.table.flows();
        let Some(run) = self.runs.end(flows, &mut self.ledger) else {
            return Reply::NoneOpen;
        };
        self.next = run.first + run.slots;
        Reply::Closed(run.first)
    }

    fn skip(&mut self, opening: &Opening, to: u64) -> Reply
        requires fit { IsFit opening.now self.old }
        ensures { Follows opening.now (Skip to) self.old result self.new }
    {
        if let Some(run) = self.runs.current() {
            return Reply::StillOpen(run.first);
        }
        self.refresh(opening);
        if let Some(flow) = self.first_flow_owing(opening) {
            return Reply::StillOwed(flow);
        }
        if to > MAX_SLOT {
            return Reply::Late(to);
        }
        self.next = self.next.max(to);
        Reply::Skipped(self.next)
    }

    fn reweigh(&mut self, opening: &Opening, coflow: u32, weight: u64) -> Reply
        requires fit { IsFit opening.now self.old }
        requires coflow_in { coflow < length opening.now.table.ids }
        requires weight_fits { weight ≤ MAX_WEIGHT }
        ensures { Follows opening.now (Reweigh coflow weight) self.old result self.new }
    {
        if !self.roster.is_present(coflow) {
            return Reply::NotHere;
        }
        let old = self.weights[coflow as usize];
        self.weights[coflow as usize] = weight;
        Reply::Weighed(old)
    }
}

/// The room for so many coflows, over so many ports on each side: none has joined, and nothing is published. The error
/// is want of memory.
fn coflows_kept(alloc: Global, coflows: u32, ports: u32) -> Result<(Roster, Orders, Line), NoMemory>
    requires coflows_limit { coflows ≤ MAX_COFLOWS }
    requires has_ports { 1 ≤ ports }
    requires ports_limit { ports ≤ MAX_PORTS + 1 }
    ensures joined { IfOk result (λ x. x.0.joined ≡ []) }
    ensures present { IfOk result (λ x. (coflow : ℕ) → marked x.0.present coflow ≡ false) }
    ensures present_len { IfOk result (λ x. length x.0.present ≡ coflows) }
    ensures version { IfOk result (λ x. x.1.version ≡ 0) }
    ensures places { IfOk result (λ x. x.1.places ≡ []) }
    ensures coflows_are { IfOk result (λ x. x.1.coflows ≡ coflows) }
    ensures ports_are { IfOk result (λ x. x.1.ports ≡ ports) }
    ensures room { IfOk result (λ x. coflows + coflows ≤ x.2.room) }
{
    let line = Line::new(alloc, coflows)?;
    let Ok(roster) = Roster::new(alloc, coflows) else {
        drop(line);
        return Err(NoMemory);
    };
    let Ok(orders) = Orders::new(alloc, coflows, ports) else {
        drop(line);
        drop(roster);
        return Err(NoMemory);
    };
    Ok((roster, orders, line))
}

/// What the flows of a table owe, and the room for their runs: each owes all its units, and no run is open. The error
/// is want of memory.
fn units_kept(alloc: Global, table: &Table) -> Result<(Ledger, Runs), NoMemory>
    ensures units { IfOk result (λ x. x.0.units ≡ map (λ (f : Flow). f.units) table.now.flows) }
    ensures owed { IfOk result (λ x. x.0.owed ≡ x.0.units) }
    ensures ports { IfOk result (λ x. x.1.ports ≡ table.now.ports) }
    ensures room { IfOk result (λ x. room_of x.1.tables ≡ length table.now.flows) }
    ensures stale { IfOk result (λ x. x.1.fresh ≡ false) }
    ensures run { IfOk result (λ x. x.1.run ≡ None) }
{
    let ledger = Ledger::new(alloc, table)?;
    let Ok(runs) = Runs::new(alloc, table) else {
        drop(ledger);
        return Err(NoMemory);
    };
    Ok((ledger, runs))
}

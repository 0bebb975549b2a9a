//! The grants that are kept from run to run, and the open run with its notes.
ghost use Rattle.std.specs.Prelude.{◌≡◌, ℕ, ◌+◌, ◌-◌, ◌<◌, ◌≤◌, List, [], true, false, None, Some, All, IfOk, IsTrue, MatchOption, if◌then◌else◌, length, map, slice_index, unwrap_or};
ghost use Rattle.std.specs.List.Sorted.{IsStrictlyIncreasing};
ghost use Rattle.coflow_units.specs.declared.fabric.Flow.{Flow};
ghost use Rattle.coflow_units.specs.Flows.{IsDistinct, ingress_of};
ghost use Rattle.journal.specs.State.{has, slot_end};
ghost use Rattle.matching.specs.Matching.{IsSettled, listed_in, room_of};
ghost use Rattle.master_core.specs.OpenRun.{FitsOpen, IsBegun, KeepsGrants, KeptRun, credit_of, flow_kept, flows_kept, kept_credit, kept_note, note_at, number_noted, with_note};

use crate::ledger::Ledger;
use coflow_units::{Flow, MAX_SLOT, NoMemory};
use flow_table::Table;
use matching::Matching;
use std::alloc::Global;
use std::marker::Model;

/// An open run: its first slot, how many slots it has, and how many flows it grants.
#[derive(Clone, Copy, Debug, PartialEq, Eq)]
pub struct OpenRun {
    pub first: u64,
    pub slots: u64,
    pub count: u32,
}

/// The grants that are kept from run to run, and the open run, where there is one, with the room for its notes. An open
/// run grants the flows that are kept.
///
/// Contracts see `Runs` as the number of ports on each side, the tables of the kept grants, whether these are fresh,
/// and the open run with its grants and notes.
#[derive(Drop)]
pub struct Runs {
    grants: Matching,
    /// Whether the kept grants are those of the line and of the units that are owed now. Where they are not, they are
    /// made anew before the next run.
    fresh: bool,
    /// For each ingress what was noted last in the open run.
    noted: Vec<Option<u64>>,
    /// Whether something was noted since the notes were cleared.
    has_notes: bool,
    current: Option<OpenRun>,
}

impl Model for Runs {
    ghost use Rattle.std.specs.Prelude.{◌≡◌, length};
    ghost use Rattle.matching.specs.Matching.{ports_of};
    ghost use Rattle.master_core.specs.KeptRuns.{AreRuns, kept_run};
    ghost use Rattle.master_core.specs.OpenRun.{KeptRuns};

    ghost Value = { KeptRuns };

    ghost view = { λ s. record {
      ports = ports_of s.grants;
      tables = s.grants;
      fresh = s.fresh;
      run = kept_run s.grants s.noted.items s.current;
    } };

    ghost invariant = { λ s. AreRuns s.grants s.noted.items s.has_notes s.current };
}

impl Runs {
    /// Takes the room for runs of a table's flows. Nothing is granted, and no run is open. The error is want of memory.
    pub fn new(alloc: Global, table: &Table) -> Result<Runs, NoMemory>
        ensures ports { IfOk result (λ r. r.ports ≡ table.now.ports) }
        ensures room { IfOk result (λ r. room_of r.tables ≡ length table.now.flows) }
        ensures stale { IfOk result (λ r. r.fresh ≡ false) }
        ensures run { IfOk result (λ r. r.run ≡ None) }
    {
        let ports = table.ports();
        let noted = vec![in alloc; None; ports as usize]?;
        let Ok(grants) = Matching::with_room(alloc, table.flows().len() as u32, ports) else {
            drop(noted);
            return Err(NoMemory);
        };
        Ok(Runs {
            grants,
            fresh: false,
            noted,
            has_notes: false,
            current: None,
        })
    }

    /// Whether the kept grants are those of the line and of the units that are owed now.
    pub fn is_fresh(&self) -> bool
        ensures { result ≡ self.now.fresh }
    {
        self.fresh
    }

    /// The kept grants are not those of the line any longer. An open run keeps its own.
    pub fn set_stale(&mut self)
        ensures { self.new ≡ record self.old { fresh = false } }
    {
        self.fresh = false;
    }

    /// Makes the grants anew, of a line of coflows and the units that each flow owes. No run is open.
    pub fn grant_anew(&mut self, table: &Table, line: &[u32], owed: &[u64])
        requires closed { self.old.run ≡ None }
        requires ports { self.old.ports ≡ table.now.ports }
        requires room { room_of self.old.tables ≡ length table.now.flows }
        requires once { IsDistinct line.now }
        requires coflow { All (λ c. c < length table.now.ids) line.now }
        requires owed_len { length owed.now ≡ length table.now.flows }
        ensures settled { IsSettled table.now.flows line.now (λ f. slice_index owed.now f) self.new.tables }
        ensures fresh { self.new.fresh ≡ true }
        ensures closed { self.new.run ≡ None }
        ensures ports { self.new.ports ≡ self.old.ports }
        ensures room { room_of self.new.tables ≡ room_of self.old.tables }
    {
        self.grants.begin(table.flows(), table.starts(), line, owed);
        self.fresh = true;
    }

    /// Whether the kept grants are of no flow.
    pub fn grants_nothing(&self) -> bool
        ensures none { IsTrue result → listed_in self.now.tables ≡ [] }
        ensures some { result ≡ false → 0 < length (listed_in self.now.tables) }
    {
        self.grants.count() == 0
    }

    /// The open run; none where no run is open.
    pub fn current(&self) -> Option<OpenRun>
        ensures { MatchOption result (self.now.run ≡ None) (λ x. (r : KeptRun) × (self.now.run ≡ Some r)
            × (x.first ≡ r.first) × (x.slots ≡ r.slots) × (x.count ≡ length r.granted)) }
    {
        self.current
    }

    /// The flow that is granted at an ingress in the open run. None comes exactly where no run is open, or the ingress
    /// has no grant in it.
    pub fn at(&self, ingress: u32) -> Option<u32>
        ensures { result ≡ flow_kept self.now.run ingress }
    {
        match self.current {
            Some(_) => self.grants.at(ingress),
            None => None,
        }
    }

    /// The flows that are granted in the open run, by number. There are none where no run is open.
    pub fn flows(&self) -> &[u32]
        ensures { result.now ≡ flows_kept self.now.run }
    {
        match self.current {
            Some(_) => self.grants.flows(),
            None => &[],
        }
    }

    /// The ingress port of each flow that is granted in the open run, in the order of `flows`. There are none where no
    /// run is open.
    pub fn ports(&self) -> &[u32]
        ensures { (flows : List Flow) (owed : List ℕ) → FitsOpen flows owed self.now.run →
            result.now ≡ map (ingress_of flows) (flows_kept self.now.run) }
    {
        match self.current {
            Some(_) => self.grants.ports(),
            None => &[],
        }
    }

    /// What was noted last at an ingress in the open run. None comes exactly where no run is open, or nothing was noted
    /// there in it.
    pub fn noted(&self, ingress: u32) -> Option<u64>
        requires { ingress < self.now.ports }
        ensures { result ≡ kept_note self.now.run ingress }
    {
        match self.current {
            Some(_) => self.noted[ingress as usize],
            None => None,
        }
    }

    /// Opens a run at slot `first` with the grants that are kept, for at most so many slots. Some flow is granted.
    pub fn begin(&mut self, first: u64, most: u64) -> OpenRun
        requires some { 0 < length (listed_in self.old.tables) }
        requires in_time { first < slot_end }
        ensures ports { self.new.ports ≡ self.old.ports }
        ensures tables { self.new.tables ≡ self.old.tables }
        ensures fresh { self.new.fresh ≡ self.old.fresh }
        ensures begun { (r : KeptRun) × (self.new.run ≡ Some r) ×
            ((flows : List Flow) (line : List ℕ) (left : ℕ → ℕ) → IsSettled flows line left self.old.tables →
            IsBegun flows self.old.ports line left first most r)
            × (result.first ≡ r.first) × (result.slots ≡ r.slots) × (result.count ≡ length r.granted) }
    {
        clear_notes(&mut self.noted, self.has_notes);
        self.has_notes = false;
        let least = self.grants.least_left();
        let run = OpenRun {
            first,
            slots: least.min(most).min(MAX_SLOT + 1 - first),
            count: self.grants.count(),
        };
        self.current = Some(run);
        run
    }

    /// Notes that so many units were sent from an ingress, or the length of the run where they are more, and answers
    /// the number noted. A later note replaces an earlier one. None comes exactly where no run is open, or the ingress
    /// has no grant in it.
    pub fn note(&mut self, ingress: u32, units: u64) -> Option<u64>
        requires { ingress < self.old.ports }
        ensures noted { result ≡ number_noted self.old.run ingress units }
        ensures run { self.new.run ≡ with_note self.old.run ingress result }
        ensures ports { self.new.ports ≡ self.old.ports }
        ensures tables { self.new.tables ≡ self.old.tables }
        ensures fresh { self.new.fresh ≡ self.old.fresh }
    {
        let Some(run) = self.current else {
            return None;
        };
        if self.grants.at(ingress).is_none() {
            return None;
        }
        let number = units.min(run.slots);
        self.noted[ingress as usize] = Some(number);
        self.has_notes = true;
        Some(number)
    }

    /// Closes the open run: each granted flow is credited with the number noted at its ingress, or with a unit for each
    /// slot. None comes exactly where no run is open. The kept grants lose the credited units and are repaired; where
    /// something was noted, they are stale instead.
    pub fn end(&mut self, flows: &[Flow], ledger: &mut Ledger) -> Option<OpenRun>
        requires fits { FitsOpen flows.now ledger.old.owed self.old.run }
        requires ingress_in_range { All (λ (x : Flow). x.ingress < self.old.ports) flows.now }
        requires units_len { length ledger.old.units ≡ length flows.now }
        requires owed_len { length ledger.old.owed ≡ length flows.now }
        ensures run { MatchOption result ((self.old.run ≡ None) × (ledger.new ≡ ledger.old))
            (λ x. (r : KeptRun) × (self.old.run ≡ Some r) × (x.first ≡ r.first) × (x.slots ≡ r.slots)
            × ((f : ℕ) → slice_index ledger.new.owed f + kept_credit flows.now r f ≡ slice_index ledger.old.owed f)) }
        ensures closed { self.new.run ≡ None }
        ensures ports { self.new.ports ≡ self.old.ports }
        ensures units { ledger.new.units ≡ ledger.old.units }
        ensures owed_len { length ledger.new.owed ≡ length ledger.old.owed }
        ensures room { room_of self.new.tables ≡ room_of self.old.tables }
        ensures grants { (line : List ℕ) → KeepsGrants flows.now line ledger.old.owed self.old →
            KeepsGrants flows.now line ledger.new.owed self.new }
    {
        let Some(run) = self.current else {
            return None;
        };
        self.current = None;
        if self.has_notes {
            credit_all(ledger, flows, self.grants.flows(), &self.noted, run.slots);
            self.fresh = false;
            return Some(run);
        }
        credit_equally(ledger, self.grants.flows(), run.slots);
        self.grants.take_run(run.slots);
        self.grants.repair();
        Some(run)
    }
}

/// Nothing is noted at an ingress any longer. Where no note was made, there is nothing to clear.
fn clear_notes(noted: &mut [Option<u64>], has_notes: bool)
    requires quiet { has_notes ≡ false → (ingress : ℕ) → note_at noted.old ingress ≡ None }
    ensures len { length noted.new ≡ length noted.old }
    ensures none { (ingress : ℕ) → note_at noted.new ingress ≡ None }
{
    if !has_notes {
        return;
    }
    noted.fill(None);
}

/// Credits each granted flow with the number noted at its ingress, or with a unit for each slot.
fn credit_all(
    ledger: &mut Ledger,
    flows: &[Flow],
    granted: &[u32],
    noted: &[Option<u64>],
    slots: u64,
)
    requires ascending { IsStrictlyIncreasing granted.now }
    requires flow { All (λ f. f < length flows.now) granted.now }
    requires ingress { All (λ (x : Flow). x.ingress < length noted.now) flows.now }
    requires units_len { length ledger.old.units ≡ length flows.now }
    requires owed_len { length ledger.old.owed ≡ length flows.now }
    requires owed { All (λ f. slots ≤ slice_index ledger.old.owed f) granted.now }
    requires notes { (ingress : ℕ) → unwrap_or (note_at noted.now ingress) slots ≤ slots }
    ensures units { ledger.new.units ≡ ledger.old.units }
    ensures owed_len { length ledger.new.owed ≡ length ledger.old.owed }
    ensures owed { (f : ℕ) → slice_index ledger.new.owed f + credit_of flows.now granted.now noted.now slots f ≡
        slice_index ledger.old.owed f }
{
    for flow in granted {
        let ingress = flows[*flow as usize].ingress;
        let units = noted[ingress as usize].unwrap_or(slots);
        ledger.credit(*flow, units);
    }
}

/// Credits each granted flow with a unit for each slot.
fn credit_equally(ledger: &mut Ledger, granted: &[u32], slots: u64)
    requires ascending { IsStrictlyIncreasing granted.now }
    requires flow { All (λ f. f < length ledger.old.units) granted.now }
    requires owed_len { length ledger.old.owed ≡ length ledger.old.units }
    requires owed { All (λ f. slots ≤ slice_index ledger.old.owed f) granted.now }
    ensures units { ledger.new.units ≡ ledger.old.units }
    ensures owed_len { length ledger.new.owed ≡ length ledger.old.owed }
    ensures owed { (f : ℕ) → slice_index ledger.new.owed f + (if has granted.now f then slots else 0) ≡
        slice_index ledger.old.owed f }
{
    for flow in granted {
        ledger.credit(*flow, slots);
    }
}

//! The ledger, and what moves in it.
ghost use Rattle.std.specs.Prelude.{◌≡◌, ℕ, ◌+◌, ◌-◌, ◌<◌, ◌≤◌, IfOk, length, map, slice_index, slice_set};
ghost use Rattle.coflow_units.specs.declared.fabric.Flow.{Flow};
ghost use Rattle.master_core.specs.Accounts.{IsBalanced, sent_of};

use coflow_units::{Flow, NoMemory};
use flow_table::Table;
use std::alloc::Global;
use std::marker::Model;

/// Of each flow the units that it has, the ones that were sent, and the ones that it owes. A flow has what was sent and
/// what it owes.
///
/// Contracts see a `Ledger` as two lists by flow: the units, and of these the ones that are owed.
#[derive(Drop)]
pub struct Ledger {
    units: Vec<u64>,
    owed: Vec<u64>,
}

impl Model for Ledger {
    ghost use Rattle.master_core.specs.Accounts.{Accounts, IsBalanced};

    ghost Value = { Accounts };

    ghost view = { λ s. record { units = s.units.items; owed = s.owed.items } };

    ghost invariant = { λ s. IsBalanced s.units.items s.owed.items };
}

impl Ledger {
    /// The ledger of a table's flows. Each owes all its units. The error is want of memory.
    pub fn new(alloc: Global, table: &Table) -> Result<Ledger, NoMemory>
        ensures units { IfOk result (λ l. l.units ≡ map (λ (x : Flow). x.units) table.now.flows) }
        ensures owed { IfOk result (λ l. l.owed ≡ l.units) }
    {
        let units = units_of(alloc, table.flows())?;
        let owed = units_of(alloc, table.flows())?;
        Ok(Ledger { units, owed })
    }

    /// Moves `n` units of a flow from those that it owes to those that were sent.
    pub fn credit(&mut self, flow: u32, n: u64)
        requires flow_in { flow < length self.old.units }
        requires owed { n ≤ slice_index self.old.owed flow }
        ensures units { self.new.units ≡ self.old.units }
        ensures owed { self.new.owed ≡ slice_set self.old.owed flow (slice_index self.old.owed flow - n) }
        ensures sent { sent_of self.new flow ≡ sent_of self.old flow + n }
    {
        self.owed[flow as usize] -= n;
    }

    /// The units that a flow owes.
    pub fn owed(&self, flow: u32) -> u64
        requires { flow < length self.now.units }
        ensures { result ≡ slice_index self.now.owed flow }
    {
        self.owed[flow as usize]
    }

    /// The units of a flow that were sent.
    pub fn sent(&self, flow: u32) -> u64
        requires { flow < length self.now.units }
        ensures sent { result ≡ sent_of self.now flow }
        ensures units { slice_index self.now.units flow ≡ result + slice_index self.now.owed flow }
    {
        self.units[flow as usize] - self.owed[flow as usize]
    }

    /// The units that each flow owes, by number.
    pub fn owed_all(&self) -> &[u64]
        ensures owed { result.now ≡ self.now.owed }
        ensures balanced { IsBalanced self.now.units self.now.owed }
    {
        &self.owed
    }
}

fn units_of(alloc: Global, flows: &[Flow]) -> Result<Vec<u64>, NoMemory>
    ensures { IfOk result (λ v. v.items ≡ map (λ (x : Flow). x.units) flows.now) }
{
    let mut units = Vec::with_capacity(alloc, flows.len())?;
    for flow in flows {
        units.push(flow.units)?;
    }
    Ok(units)
}

//! The table of flows.
ghost use Rattle.std.specs.Prelude.{◌≡◌, ◌-◌, ◌^◌, ◌<◌, ◌≤◌, ◌==◌, IfErr, IfOk, OnOk, drop, filter, length, map, slice_index, take};
ghost use Rattle.coflow_units.specs.declared.limits.TheConstants.{MAX_UNIT, MAX_UNITS};
ghost use Rattle.coflow_units.specs.declared.fabric.Flow.{Flow};
ghost use Rattle.coflow_units.specs.declared.trace.CoflowLine.{CoflowLine};
ghost use Rattle.coflow_units.specs.Flows.{flow_at};
ghost use Rattle.coflow_units.specs.Trace.{IsTrace, ids_of};
ghost use Rattle.flow_table.specs.Causes.{HasCause, IsLimitExactly};
ghost use Rattle.flow_table.specs.Table.{IsTable, IsTableOf};
ghost use Rattle.flow_table.specs.Units.{units_in_all};

use crate::fault::TableFault;
use crate::flows::flows_of;
use crate::starts::starts_of;
use crate::stop::Stop;
use crate::units::units_in_all;
use coflow_units::{CoflowLine, Flow, MAX_FLOWS, MAX_UNITS, NoMemory, Quantity, Trace, UnitSize};
use std::alloc::{AllocError, Global};
use std::marker::Model;

/// The flows of a trace, by number, with the ids and the arrivals of its coflows.
///
/// A coflow has its place among the lines of the trace as its number, from 0. A flow has its place in the order of
/// coflow, ingress and egress. Contracts see a `Table` as its flows, starts, ports, ids and arrivals.
#[derive(Drop)]
pub struct Table {
    flows: Vec<Flow>,
    starts: Vec<u32>,
    ports: u32,
    ids: Vec<u32>,
    arrivals: Vec<u32>,
}

impl Model for Table {
    ghost use Rattle.flow_table.specs.Table.{IsTable, TableFacts};

    ghost Value = { TableFacts };

    ghost view = { λ s. record {
      flows = s.flows.items;
      starts = s.starts.items;
      ports = s.ports;
      ids = s.ids.items;
      arrivals = s.arrivals.items;
    } };

    ghost invariant = { λ s. IsTable record {
      flows = s.flows.items;
      starts = s.starts.items;
      ports = s.ports;
      ids = s.ids.items;
      arrivals = s.arrivals.items;
    } };
}

impl Table {
    /// The table of a trace that is within the limits of a trace, where a unit has `unit` megabytes, from 1 to 2^20.
    ///
    /// A reducer of `m` megabytes has `m / unit` units, rounded up. Each of the `M` mappers of its coflow sends it the
    /// quotient of its units by `M`, and the first ones in the line send one more for each unit that is left. A
    /// location that stands again among the mappers sends again. All that a coflow sends from one location to another
    /// is one flow; where it sends nothing there is none. A side has one port more than the trace names, because
    /// locations count from 0 to that number.
    ///
    /// `Limit` of `Units` comes exactly where the units of all reducers are more than 2^40, with their sum, or 2^64 - 1
    /// where that is greater. `Limit` of `Flows` comes exactly where they are not and there are more than 2^20 flows,
    /// with the count 1048577. `NoMemory` may come in place of any answer.
    pub fn build(alloc: Global, trace: &Trace, unit: u64) -> Result<Table, TableFault>
        requires trace { IsTrace trace.now }
        requires some { 1 ≤ unit }
        requires unit_limit { unit ≤ MAX_UNIT }
        ensures table { IfOk result (λ table. IsTableOf trace.now unit table) }
        ensures within_limits { IfOk result IsTable }
        ensures units { OnOk result (units_in_all trace.now unit ≤ MAX_UNITS) }
        ensures cause { IfErr result (HasCause trace.now unit) }
        ensures limit { IsLimitExactly trace.now unit result }
    {
        let size = UnitSize { megabytes: unit };
        let units = units_in_all(trace, size);
        if units > MAX_UNITS {
            return Err(TableFault::Limit {
                which: Quantity::Units,
                count: units,
            });
        }
        let flows = match flows_of(alloc, trace, size) {
            Ok(flows) => flows,
            Err(Stop::Full) => {
                return Err(TableFault::Limit {
                    which: Quantity::Flows,
                    count: u64::from(MAX_FLOWS) + 1,
                });
            }
            Err(Stop::NoMemory) => return Err(TableFault::NoMemory),
        };
        let lines = trace.coflows.as_slice();
        let starts = starts_of(alloc, &flows, lines.len() as u32)?;
        let ids = ids_of(alloc, lines)?;
        let arrivals = arrivals_of(alloc, lines)?;
        Ok(Table {
            flows,
            starts,
            ports: trace.number + 1,
            ids,
            arrivals,
        })
    }

    /// An equal table. `NoMemory` is want of memory.
    pub fn copy(&self, alloc: Global) -> Result<Table, NoMemory>
        ensures { IfOk result (λ copy. copy ≡ self.now) }
    {
        Ok(Table {
            flows: Vec::from_slice(alloc, &self.flows)?,
            starts: Vec::from_slice(alloc, &self.starts)?,
            ports: self.ports,
            ids: Vec::from_slice(alloc, &self.ids)?,
            arrivals: Vec::from_slice(alloc, &self.arrivals)?,
        })
    }

    /// The flows, by number: in the order of coflow, ingress and egress.
    pub fn flows(&self) -> &[Flow]
        ensures flows { result.now ≡ self.now.flows }
        ensures table { IsTable self.now }
    {
        &self.flows
    }

    /// The number of the first flow of each coflow, and at the end the number of flows.
    pub fn starts(&self) -> &[u32]
        ensures starts { result.now ≡ self.now.starts }
        ensures table { IsTable self.now }
    {
        &self.starts
    }

    /// The flow with this number.
    pub fn flow(&self, flow: u32) -> Flow
        requires { flow < length self.now.flows }
        ensures { result ≡ flow_at self.now.flows flow }
    {
        self.flows[flow as usize]
    }

    /// The number of coflows.
    pub fn coflows(&self) -> u32
        ensures coflows { result ≡ length self.now.ids }
        ensures table { IsTable self.now }
    {
        self.ids.len() as u32
    }

    /// The number of ports on each side.
    pub fn ports(&self) -> u32
        ensures ports { result ≡ self.now.ports }
        ensures table { IsTable self.now }
    {
        self.ports
    }

    /// The id of a coflow.
    pub fn id(&self, coflow: u32) -> u32
        requires { coflow < length self.now.ids }
        ensures { result ≡ slice_index self.now.ids coflow }
    {
        self.ids[coflow as usize]
    }

    /// The arrival of a coflow, in milliseconds.
    pub fn arrival(&self, coflow: u32) -> u32
        requires { coflow < length self.now.ids }
        ensures { result ≡ slice_index self.now.arrivals coflow }
    {
        self.arrivals[coflow as usize]
    }

    /// The flows of a coflow, in their order.
    pub fn of_coflow(&self, coflow: u32) -> &[Flow]
        requires { coflow < length self.now.ids }
        ensures { result.now ≡ filter (λ (x : Flow). x.coflow == coflow) self.now.flows }
    {
        let first = self.starts[coflow as usize] as usize;
        let end = self.starts[coflow as usize + 1] as usize;
        part_of(&self.flows, first, end)
    }
}

/// The flows from the first number up to the end.
fn part_of(flows: &[Flow], first: usize, end: usize) -> &[Flow]
    requires ascending { first ≤ end }
    requires within { end ≤ length flows.now }
    ensures { result.now ≡ take (end - first) (drop first flows.now) }
{
    &flows[first..end]
}

/// The ids of the coflows, by number.
fn ids_of(alloc: Global, lines: &[CoflowLine]) -> Result<Vec<u32>, AllocError>
    ensures { IfOk result (λ ids. ids.items ≡ ids_of lines.now) }
{
    let mut ids = Vec::new(alloc);
    for line in lines {
        ids.push(line.id)?;
    }
    Ok(ids)
}

/// The arrivals of the coflows, by number.
fn arrivals_of(alloc: Global, lines: &[CoflowLine]) -> Result<Vec<u32>, AllocError>
    ensures { IfOk result (λ arrivals. arrivals.items ≡ map (λ (x : CoflowLine). x.arrival) lines.now) }
{
    let mut arrivals = Vec::new(alloc);
    for line in lines {
        arrivals.push(line.arrival)?;
    }
    Ok(arrivals)
}

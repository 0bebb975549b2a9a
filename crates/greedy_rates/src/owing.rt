//! What the flows owe, and its sums.
ghost use Rattle.std.specs.Prelude.{◌≡◌, ◌≢◌, ℕ, ◌+◌, ◌-◌, ◌<◌, ◌≤◌, ◌^◌, ◌↔◌, All, IfOk, IsTrue, length, map, slice_index, sum, sum_by};
ghost use Rattle.coflow_units.specs.declared.fabric.Flow.{Flow};
ghost use Rattle.coflow_units.specs.Flows.{coflow_of, ingress_of};
ghost use Rattle.greedy_rates.specs.Owed.{IsGroups, IsOwed};

use coflow_units::{Flow, NoMemory};
use std::alloc::Global;
use std::marker::Model;

/// The units that each flow has left, and their sums: over the flows of each coflow, over the flows that begin at each
/// ingress, over the flows that end at each egress, and over the flows of each group. A group is flows of one coflow
/// that begin at one ingress and stand one behind another. With these sums a pass over the flows leaves out what owes
/// nothing without looking at it.
///
/// Contracts see an `Owing` as the lists of these numbers. That they are those of certain flows is told apart.
#[derive(Drop)]
pub struct Owing {
    /// For each flow the units that it has left.
    left: Vec<u64>,
    /// For each coflow the sum over its flows.
    of_coflow: Vec<u64>,
    /// For each ingress the sum over the flows that begin there.
    at_ingress: Vec<u64>,
    /// For each egress the sum over the flows that end there.
    at_egress: Vec<u64>,
    /// For each flow the number behind its group.
    behind: Vec<u32>,
    /// For each group the sum over its flows, at the number behind it.
    of_group: Vec<u64>,
}

impl Model for Owing {
    ghost use Rattle.greedy_rates.specs.Owed.{Owed};

    ghost Value = { Owed };

    ghost view = { λ s. record {
      left = s.left.items;
      of_coflow = s.of_coflow.items;
      at_ingress = s.at_ingress.items;
      at_egress = s.at_egress.items;
      behind = s.behind.items;
      of_group = s.of_group.items;
    } };
}

impl Owing {
    /// Every flow owes all its units. Numbers of coflows are below `coflows`, and ports of a side below `ports`. The
    /// flows are fewer than 2^32 and have at most 2^62 units together. The error is want of memory.
    pub fn of(alloc: Global, flows: &[Flow], coflows: u32, ports: u32) -> Result<Owing, NoMemory>
        requires coflow_in_range { All (λ (x : Flow). x.coflow < coflows) flows.now }
        requires ingress_in_range { All (λ (x : Flow). x.ingress < ports) flows.now }
        requires egress_in_range { All (λ (x : Flow). x.egress < ports) flows.now }
        requires few { length flows.now < 2 ^ 32 }
        requires units { sum_by (λ (x : Flow). x.units) flows.now ≤ 2 ^ 62 }
        ensures owed { IfOk result (λ o. IsOwed flows.now o) }
        ensures left { IfOk result (λ o. o.left ≡ map (λ (x : Flow). x.units) flows.now) }
        ensures coflows_are { IfOk result (λ o. length o.of_coflow ≡ coflows) }
        ensures ports_are { IfOk result (λ o. (length o.at_ingress ≡ ports) × (length o.at_egress ≡ ports)) }
    {
        let mut owing = Owing::nothing(alloc, flows, coflows, ports)?;
        for number in 0..flows.len() {
            owing.give(flows, number as u32, flows[number].units);
        }
        Ok(owing)
    }

    /// No flow owes a unit.
    fn nothing(alloc: Global, flows: &[Flow], coflows: u32, ports: u32) -> Result<Owing, NoMemory>
        requires coflow_in_range { All (λ (x : Flow). x.coflow < coflows) flows.now }
        requires ingress_in_range { All (λ (x : Flow). x.ingress < ports) flows.now }
        requires egress_in_range { All (λ (x : Flow). x.egress < ports) flows.now }
        requires few { length flows.now < 2 ^ 32 }
        ensures owed { IfOk result (λ o. IsOwed flows.now o) }
        ensures left { IfOk result (λ o. All (λ units. units ≡ 0) o.left) }
        ensures coflows_are { IfOk result (λ o. length o.of_coflow ≡ coflows) }
        ensures ports_are { IfOk result (λ o. (length o.at_ingress ≡ ports) × (length o.at_egress ≡ ports)) }
    {
        let left = vec![in alloc; 0u64; flows.len()]?;
        let of_coflow = vec![in alloc; 0u64; coflows as usize]?;
        let at_ingress = vec![in alloc; 0u64; ports as usize]?;
        let at_egress = vec![in alloc; 0u64; ports as usize]?;
        let behind = groups_of(alloc, flows)?;
        let of_group = vec![in alloc; 0u64; flows.len() + 1]?;
        Ok(Owing {
            left,
            of_coflow,
            at_ingress,
            at_egress,
            behind,
            of_group,
        })
    }

    /// The flow owes so many units more.
    fn give(&mut self, flows: &[Flow], flow: u32, units: u64)
        requires owed { IsOwed flows.now self.old }
        requires flow { flow < length flows.now }
        requires room { sum self.old.left + units ≤ 2 ^ 62 }
        ensures owed { IsOwed flows.now self.new }
        ensures more { slice_index self.new.left flow ≡ slice_index self.old.left flow + units }
        ensures others { (f : ℕ) → f ≢ flow → slice_index self.new.left f ≡ slice_index self.old.left f }
        ensures coflows_are { length self.new.of_coflow ≡ length self.old.of_coflow }
        ensures ports_are { (length self.new.at_ingress ≡ length self.old.at_ingress) ×
            (length self.new.at_egress ≡ length self.old.at_egress) }
    {
        let Flow {
            coflow,
            ingress,
            egress,
            units: _,
        } = flows[flow as usize];
        let group = self.behind[flow as usize];
        self.left[flow as usize] += units;
        self.of_coflow[coflow as usize] += units;
        self.at_ingress[ingress as usize] += units;
        self.at_egress[egress as usize] += units;
        self.of_group[group as usize] += units;
    }

    /// The flow owes so many units less.
    pub fn take(&mut self, flows: &[Flow], flow: u32, units: u64)
        requires owed { IsOwed flows.now self.old }
        requires flow { flow < length flows.now }
        requires enough { units ≤ slice_index self.old.left flow }
        ensures owed { IsOwed flows.now self.new }
        ensures less { slice_index self.new.left flow ≡ slice_index self.old.left flow - units }
        ensures others { (f : ℕ) → f ≢ flow → slice_index self.new.left f ≡ slice_index self.old.left f }
        ensures coflows_are { length self.new.of_coflow ≡ length self.old.of_coflow }
        ensures ports_are { (length self.new.at_ingress ≡ length self.old.at_ingress) ×
            (length self.new.at_egress ≡ length self.old.at_egress) }
    {
        let Flow {
            coflow,
            ingress,
            egress,
            units: _,
        } = flows[flow as usize];
        let group = self.behind[flow as usize];
        self.left[flow as usize] -= units;
        self.of_coflow[coflow as usize] -= units;
        self.at_ingress[ingress as usize] -= units;
        self.at_egress[egress as usize] -= units;
        self.of_group[group as usize] -= units;
    }

    /// The units that each flow has left.
    pub fn left(&self) -> &[u64]
        ensures { result.now ≡ self.now.left }
    {
        &self.left
    }

    /// The units that a coflow owes: the sum over its flows.
    pub fn of_coflow(&self, coflow: u32) -> u64
        requires { coflow < length self.now.of_coflow }
        ensures { result ≡ slice_index self.now.of_coflow coflow }
    {
        self.of_coflow[coflow as usize]
    }

    /// The units owed at each ingress: the sum over the flows that begin there.
    pub(crate) fn at_ingress(&self) -> &[u64]
        ensures { result.now ≡ self.now.at_ingress }
    {
        &self.at_ingress
    }

    /// The units owed at each egress: the sum over the flows that end there.
    pub(crate) fn at_egress(&self) -> &[u64]
        ensures { result.now ≡ self.now.at_egress }
    {
        &self.at_egress
    }

    /// The number behind the group of a flow.
    pub(crate) fn behind(&self, flow: u32) -> u32
        requires { flow < length self.now.behind }
        ensures { result ≡ slice_index self.now.behind flow }
    {
        self.behind[flow as usize]
    }

    /// The units that the group before a number owes: the sum over its flows.
    pub(crate) fn of_group(&self, behind: u32) -> u64
        requires { behind < length self.now.of_group }
        ensures { result ≡ slice_index self.now.of_group behind }
    {
        self.of_group[behind as usize]
    }
}

/// For each flow the number behind its group, from the last flow to the first.
fn groups_of(alloc: Global, flows: &[Flow]) -> Result<Vec<u32>, NoMemory>
    requires { length flows.now < 2 ^ 32 }
    ensures { IfOk result (λ behind. IsGroups flows.now behind.items) }
{
    let mut behind = vec![in alloc; 0u32; flows.len()]?;
    let mut first = flows.len();
    while first > 0 {
        first -= 1;
        if goes_on(flows, first) {
            behind[first] = behind[first + 1];
            continue;
        }
        behind[first] = first as u32 + 1;
    }
    Ok(behind)
}

/// The next flow is of the same coflow and begins at the same ingress.
fn goes_on(flows: &[Flow], number: usize) -> bool
    requires { number < length flows.now }
    ensures { IsTrue result ↔ ((number + 1 < length flows.now) ×
        (coflow_of flows.now (number + 1) ≡ coflow_of flows.now number) ×
        (ingress_of flows.now (number + 1) ≡ ingress_of flows.now number)) }
{
    let Some(next) = flows.get(number + 1) else {
        return false;
    };
    next.coflow == flows[number].coflow && next.ingress == flows[number].ingress
}

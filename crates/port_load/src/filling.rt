//! A table of loads is filled coflow by coflow.
ghost use Rattle.std.specs.Prelude.{◌≡◌, ◌≢◌, ℕ, ◌+◌, ◌^◌, ◌<◌, ◌≤◌, true, false, if◌then◌else◌, length, slice_index, sum};
ghost use Rattle.coflow_units.specs.declared.fabric.Port.{Port};
ghost use Rattle.coflow_units.specs.Flows.{with_units};
ghost use Rattle.coflow_units.specs.Load.{load, loads};
ghost use Rattle.coflow_units.specs.Starts.{IsStarts};
ghost use Rattle.port_load.specs.LoadTable.{IsSameSize, IsWithin, is_present, load_at, total_at};
ghost use Rattle.port_load.specs.Pending.{pending_at};

use crate::loads::Loads;
use coflow_units::{Flow, Port, Side};

/// The units of the flows met last, all at one ingress port, that the table does not have there yet.
#[derive(Clone, Copy)]
struct Pending {
    ingress: u32,
    units: u64,
}

impl Loads {
    /// Does what `fill` does, where the flows stand coflow by coflow, those of each coflow from its start on: the flows
    /// of coflows that are not present are not looked at.
    pub fn fill_by_coflow(&mut self, flows: &[Flow], starts: &[u32], left: &[u64], present: &[bool])
        requires within { IsWithin flows.now self.old.coflows self.old.ports }
        requires left_len { length left.now ≡ length flows.now }
        requires present_len { length present.now ≡ self.old.coflows }
        requires units { sum left.now ≤ 2 ^ 62 }
        requires starts { IsStarts flows.now starts.now }
        requires starts_len { length starts.now ≡ self.old.coflows + 1 }
        ensures size { IsSameSize self.old self.new }
        ensures present_are { (coflow : ℕ) (port : Port) → coflow < self.old.coflows → port.number < self.old.ports →
            is_present present.now coflow ≡ true →
            load_at self.new coflow port ≡ load (with_units (λ f. slice_index left.now f) flows.now) coflow port }
        ensures absent_are { (coflow : ℕ) (port : Port) → coflow < self.old.coflows → port.number < self.old.ports →
            is_present present.now coflow ≡ false →
            load_at self.new coflow port ≡ 0 }
        ensures totals_within { (port : Port) → port.number < self.old.ports → total_at self.new port ≤ sum left.now }
    {
        self.clear();
        for coflow in 0..self.coflows() {
            if present[coflow as usize] {
                self.add_coflow(flows, starts, left, coflow);
            }
        }
    }

    /// Adds the loads of a coflow that has none yet, from the units that its flows have left. Flows that follow each
    /// other at one ingress port are added there together.
    fn add_coflow(&mut self, flows: &[Flow], starts: &[u32], left: &[u64], coflow: u32)
        requires within { IsWithin flows.now self.old.coflows self.old.ports }
        requires left_len { length left.now ≡ length flows.now }
        requires units { sum left.now ≤ 2 ^ 62 }
        requires starts { IsStarts flows.now starts.now }
        requires starts_len { length starts.now ≡ self.old.coflows + 1 }
        requires coflow_in { coflow < self.old.coflows }
        requires none { (port : Port) → port.number < self.old.ports → load_at self.old coflow port ≡ 0 }
        requires most { (other : ℕ) (port : Port) → other < self.old.coflows → port.number < self.old.ports →
            load_at self.old other port ≤ load (with_units (λ f. slice_index left.now f) flows.now) other port }
        ensures size { IsSameSize self.old self.new }
        ensures own { (port : Port) → port.number < self.old.ports →
            load_at self.new coflow port ≡ load (with_units (λ f. slice_index left.now f) flows.now) coflow port }
        ensures others { (other : ℕ) (port : Port) → other < self.old.coflows → other ≢ coflow →
            port.number < self.old.ports → load_at self.new other port ≡ load_at self.old other port }
    {
        let first = starts[coflow as usize];
        let end = starts[coflow as usize + 1];
        let mut pending = Pending {
            ingress: 0,
            units: 0,
        };
        for number in first..end {
            let units = left[number as usize];
            if units == 0 {
                continue;
            }
            let flow = flows[number as usize];
            pending = self.add_next(
                pending,
                Flow {
                    coflow: flow.coflow,
                    ingress: flow.ingress,
                    egress: flow.egress,
                    units,
                },
            );
        }
        self.add_pending(coflow, pending);
    }

    /// Adds the units of a flow at its egress port. At its ingress port they are pending, together with what was
    /// pending there; what was pending at another port is added.
    fn add_next(&mut self, pending: Pending, flow: Flow) -> Pending
        requires coflow_in { flow.coflow < self.old.coflows }
        requires ingress_in { flow.ingress < self.old.ports }
        requires egress_in { flow.egress < self.old.ports }
        requires pending_in { 0 < pending.units → pending.ingress < self.old.ports }
        requires units { (port : Port) → port.number < self.old.ports →
            total_at self.old port + pending.units + flow.units < 2 ^ 64 }
        ensures size { IsSameSize self.old self.new }
        ensures ingress { result.ingress ≡ flow.ingress }
        ensures adds { (coflow : ℕ) (port : Port) → coflow < self.old.coflows → port.number < self.old.ports →
            load_at self.new coflow port + pending_at flow.coflow result coflow port ≡
            load_at self.old coflow port + pending_at flow.coflow pending coflow port +
            (if loads coflow port flow then flow.units else 0) }
    {
        self.add_at(
            flow.coflow,
            Port {
                side: Side::Egress,
                number: flow.egress,
            },
            flow.units,
        );
        if pending.ingress == flow.ingress {
            return Pending {
                ingress: flow.ingress,
                units: pending.units + flow.units,
            };
        }
        self.add_pending(flow.coflow, pending);
        Pending {
            ingress: flow.ingress,
            units: flow.units,
        }
    }

    /// Adds what is pending of a coflow.
    fn add_pending(&mut self, coflow: u32, pending: Pending)
        requires coflow_in { coflow < self.old.coflows }
        requires ingress_in { 0 < pending.units → pending.ingress < self.old.ports }
        requires units { 0 < pending.units →
            total_at self.old (record { side = Side.Ingress; number = pending.ingress }) + pending.units < 2 ^ 64 }
        ensures size { IsSameSize self.old self.new }
        ensures adds { (other : ℕ) (port : Port) → other < self.old.coflows → port.number < self.old.ports →
            load_at self.new other port ≡ load_at self.old other port + pending_at coflow pending other port }
    {
        if pending.units == 0 {
            return;
        }
        self.add_at(
            coflow,
            Port {
                side: Side::Ingress,
                number: pending.ingress,
            },
            pending.units,
        );
    }
}

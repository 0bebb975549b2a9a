//! Plain, slow programs of the definitions. Tests compare the fast ones with them.
ghost use Rattle.std.specs.Prelude.{◌≡◌, ◌^◌, ◌≤◌, sum_by};
ghost use Rattle.coflow_units.specs.declared.fabric.Flow.{Flow};
ghost use Rattle.coflow_units.specs.Flows.{end_at};
ghost use Rattle.coflow_units.specs.Load.{load};

use crate::fabric::{Flow, Port, Side};

/// The load of a coflow on a port, in units, by adding up the flows. The units of all flows sum to at most 2^62.
pub fn load_of(flows: &[Flow], coflow: u32, port: Port) -> u64
    requires small { sum_by (λ (x : Flow). x.units) flows.now ≤ 2 ^ 62 }
    ensures { result ≡ load flows.now coflow port }
{
    let mut total = 0;
    for flow in flows {
        let end = end_of(port.side, flow);
        if flow.coflow == coflow && end == port.number {
            total += flow.units;
        }
    }
    total
}

fn end_of(side: Side, flow: &Flow) -> u32
    ensures { result ≡ end_at side flow.now }
{
    match side {
        Side::Ingress => flow.ingress,
        Side::Egress => flow.egress,
    }
}

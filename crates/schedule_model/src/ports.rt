//! The ports that flows use.
ghost use Rattle.std.specs.Prelude.{◌≡◌, ◌<◌, All};
ghost use Rattle.coflow_units.specs.declared.fabric.Flow.{Flow};
ghost use Rattle.coflow_units.specs.Flows.{end_at};

use coflow_units::{Flow, Side};

/// One more than the greatest port number of the flows.
pub(crate) fn port_count(flows: &[Flow]) -> usize
    ensures ingress { All (λ (x : Flow). x.ingress < result) flows.now }
    ensures egress { All (λ (x : Flow). x.egress < result) flows.now }
{
    let mut count: usize = 0;
    for flow in flows {
        count = count
            .max(flow.ingress as usize + 1)
            .max(flow.egress as usize + 1);
    }
    count
}

/// The number of the port that the flow uses on the side.
pub(crate) fn port_at(side: Side, flow: &Flow) -> u32
    ensures { result ≡ end_at side flow.now }
{
    match side {
        Side::Ingress => flow.ingress,
        Side::Egress => flow.egress,
    }
}

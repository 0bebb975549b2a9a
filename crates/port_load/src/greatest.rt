//! The greatest load of a coflow.
ghost use Rattle.std.specs.Prelude.{◌<◌};
ghost use Rattle.port_load.specs.Bottleneck.{IsBottleneck, IsGreatestOn};

use crate::loads::Loads;
use coflow_units::{Port, Side};

/// The greatest load of a coflow on a port, in units.
pub fn bottleneck(loads: &Loads, coflow: u32) -> u64
    requires { coflow < loads.now.coflows }
    ensures { IsBottleneck loads.now coflow result }
{
    let ingress = greatest_on(loads, coflow, Side::Ingress);
    let egress = greatest_on(loads, coflow, Side::Egress);
    ingress.max(egress)
}

/// The greatest load of a coflow on a port of the side.
fn greatest_on(loads: &Loads, coflow: u32, side: Side) -> u64
    requires { coflow < loads.now.coflows }
    ensures { IsGreatestOn loads.now coflow side loads.now.ports result }
{
    let ports = loads.ports();
    let mut greatest = loads.get(coflow, Port { side, number: 0 });
    for number in 1..ports {
        let port = Port { side, number };
        greatest = greatest.max(loads.get(coflow, port));
    }
    greatest
}

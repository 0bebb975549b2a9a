//! The wires of the ports, from their places into outlets and back.
ghost use Rattle.std.specs.Prelude.{◌≡◌, ◌<◌, ◌≤◌, [], All, length, map, slice_index_or, None, vec_capacity};
ghost use Rattle.crews.specs.declared.part.Outlet.{Outlet};
ghost use Rattle.crews.specs.Wires.{AreTaken, AreThere, Distinct};

use crate::part::Outlet;

/// The wires of these ports go into outlets, in the order of the ports.
pub fn take_out<W>(ports: &[u32], wires: &mut [Option<W>], outlets: &mut Vec<Outlet<W>>)
    requires distinct { Distinct ports.now }
    requires there { AreThere ports.now wires.old }
    requires none { outlets.old.items ≡ [] }
    requires room { length ports.now ≤ vec_capacity outlets.old }
    ensures taken { AreTaken ports.now wires.old wires.new outlets.new.items }
    ensures room { vec_capacity outlets.new ≡ vec_capacity outlets.old }
{
    for port in ports {
        let Some(wire) = wires[*port as usize].take() else {
            unreachable!();
        };
        outlets.push_reserved(Outlet { port: *port, wire });
    }
}

/// The wires of the outlets go back to their ports.
pub fn put_back<W>(outlets: &mut Vec<Outlet<W>>, wires: &mut [Option<W>])
    requires distinct { Distinct (map (λ (o : Outlet W). o.port) outlets.old.items) }
    requires within { All (λ (o : Outlet W). o.port < length wires.old) outlets.old.items }
    requires gone { All (λ (o : Outlet W). slice_index_or wires.old o.port None ≡ None) outlets.old.items }
    ensures put { AreTaken (map (λ (o : Outlet W). o.port) outlets.old.items) wires.new wires.old outlets.old.items }
    ensures none { outlets.new.items ≡ [] }
    ensures room { vec_capacity outlets.new ≡ vec_capacity outlets.old }
{
    while let Some(outlet) = outlets.pop() {
        let Outlet { port, wire } = outlet;
        match wires[port as usize].replace(wire) {
            None => {}
            Some(_) => unreachable!(),
        }
    }
}

//! Wires in memory, one for each ingress port.
ghost use Rattle.std.specs.Prelude.{◌≡◌, ◌↔◌, ◌+◌, ◌≤◌, All, IfSome, IsTrue, length};
ghost use Rattle.coflow_units.specs.declared.limits.TheConstants.{MAX_PORTS};
ghost use Rattle.job_runs.specs.Wires.{IsFresh};

use crate::meeting::Side;
use coflow_units::MAX_PORTS;
use outside::{MemWire, Wire};
use std::alloc::Global;

/// How many ingress ports there are at most.
const PORTS: u32 = MAX_PORTS + 1;

/// How many runs a wire has room for. One more is a fault.
const ROOM: usize = 8;

/// A wire in memory. It may wait for another one before each run that it is sent. Where that one does not come it gives
/// up: it accepts nothing, which is a fault.
#[derive(Drop)]
pub struct MeetingWire<'a> {
    wire: MemWire,
    side: Option<Side<'a>>,
    given_up: u64,
}

impl MeetingWire<'_> {
    /// The wire in memory, with the runs that it accepted.
    pub fn accepted(&self) -> &MemWire
        ensures { result.now ≡ self.now.wire }
    {
        &self.wire
    }

    /// Whether it waited for another one who did not come.
    pub fn gave_up(&self) -> bool
        ensures { IsTrue result ↔ (1 ≤ self.now.given_up) }
    {
        self.given_up > 0
    }

    /// Whether it need not wait, or the other one came.
    fn meets(&self) -> bool {
        match &self.side {
            Some(side) => side.meets(),
            None => true,
        }
    }
}

impl Wire for MeetingWire<'_> {
    ghost use Rattle.std.specs.Prelude.{Some};

    ghost faults = { λ w. w.wire.faults + w.given_up };

    ghost runs = { λ w. Some w.wire.runs.items };

    fn send(&mut self, slot: u64, flow: u32, length: u64) -> u64 {
        if !self.meets() {
            self.given_up = self.given_up.saturating_add(1);
            return 0;
        }
        self.wire.send(slot, flow, length)
    }
}

/// A wire for each ingress port, from 0 on, of which the first two do not accept the units with these numbers, counted
/// from 1 over all units sent there; 0 is no unit's. Those of even and of odd ports may wait for others. None means
/// that memory was wanting.
pub fn wires_meeting<'a>(
    alloc: Global,
    fail_at: [u64; 2],
    sides: [Option<Side<'a>>; 2],
) -> Option<Vec<MeetingWire<'a>>>
    ensures count { IfSome result (λ wires. length wires.items ≡ MAX_PORTS + 1) }
    ensures fresh { IfSome result (λ wires. All (λ w. IsFresh w.wire) wires.items) }
    ensures nobody { IfSome result (λ wires. All (λ w. w.given_up ≡ 0) wires.items) }
{
    let Ok(mut wires) = Vec::with_capacity(alloc, PORTS as usize) else {
        return None;
    };
    for port in 0..PORTS {
        let Some(wire) = wire_failing(alloc, failing_unit(port, fail_at)) else {
            drop(wires);
            return None;
        };
        wires.push_reserved(MeetingWire {
            wire,
            side: if port % 2 == 1 { sides[1] } else { sides[0] },
            given_up: 0,
        });
    }
    Some(wires)
}

/// The unit that the wire of a port does not accept; 0 is no unit's.
fn failing_unit(port: u32, fail_at: [u64; 2]) -> u64 {
    match port {
        0 => fail_at[0],
        1 => fail_at[1],
        _ => 0,
    }
}

/// A wire that does not accept the unit with this number. None means that memory was wanting.
fn wire_failing(alloc: Global, fails: u64) -> Option<MemWire>
    ensures { IfSome result IsFresh }
{
    match MemWire::new(alloc, ROOM, Some(fails)) {
        Ok(wire) => Some(wire),
        Err(_) => None,
    }
}

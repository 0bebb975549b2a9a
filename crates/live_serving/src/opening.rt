//! One opening of the driver.
ghost use Rattle.std.specs.Prelude.{◌≡◌, ◌≤◌, length};
ghost use Rattle.slot_runner.specs.Crews.{IsAt};
ghost use Rattle.live_serving.specs.Driving.{MayDrive};
ghost use Rattle.live_serving.specs.Openings.{AreServed, IsOpening};

use crate::stop::Stop;
use client_session::Hall;
use outside::Wire;
use slot_runner::{Crew, Ran, Site};
use std::sync::Wait;

/// Asks once that a run of at most so many slots is opened, sends it by the agents of the crew, and closes it. The
/// answer is whether there was a run, or else nothing is left.
///
/// The error says why there was none, or not a whole one: the journal has no room, or the wire of a port accepted fewer
/// units than it was sent.
pub fn open_once<R: Wait, W: Wire>(
    rt: &R,
    hall: &Hall,
    site: &Site<W>,
    most: u64,
    crew: &mut Crew<W>,
) -> Result<bool, Stop>
    requires may { MayDrive hall.now most crew.old.runner }
    requires most { 1 ≤ most }
    requires site { IsAt site.now crew.old }
    requires wires { hall.now.setting.opening.table.ports ≤ length crew.old.wires }
    ensures opening { IsOpening hall.now most crew.old.runner crew.new.runner result }
    ensures wires { AreServed W.faults W.runs hall.now crew.old.runner crew.new.runner crew.old.wires crew.new.wires
        result }
    ensures stays { (crew.new.at ≡ crew.old.at) × (crew.new.places ≡ crew.old.places) }
{
    let _within = hall.coflows();
    match crew.slot(rt, hall, site, most) {
        Ran::Ran { .. } => Ok(true),
        Ran::Nothing => Ok(false),
        Ran::Full(_) => Err(Stop::Full),
        Ran::WireFault { port, .. } => Err(Stop::WireFault { port }),
        Ran::Late(_) | Ran::Spent | Ran::NoMemory => unreachable!(),
    }
}

//! The wires and the gates of a job.
ghost use Rattle.std.specs.Prelude.{◌≡◌, ◌+◌, IfSome, length};
ghost use Rattle.coflow_units.specs.declared.limits.TheConstants.{MAX_CLIENTS, MAX_PORTS};

use crate::gates::{MeetingGate, gates_meeting};
use crate::meeting::Pair;
use crate::row::Row;
use crate::wires::{MeetingWire, wires_meeting};
use std::alloc::Global;

/// A wire for each ingress port that a trace may have, and a gate for each client that a script may have.
#[derive(Drop)]
pub struct Stage<'a> {
    pub wires: Vec<MeetingWire<'a>>,
    pub gates: Vec<MeetingGate<'a>>,
}

/// The wires and the gates of a row, of whom those wait for one another that the row names. None means that memory was
/// wanting.
pub fn stage_of<'a>(alloc: Global, row: Row<'_>, pair: &'a Pair) -> Option<Stage<'a>>
    ensures wires { IfSome result (λ stage. length stage.wires.items ≡ MAX_PORTS + 1) }
    ensures gates { IfSome result (λ stage. length stage.gates.items ≡ MAX_CLIENTS) }
{
    let Some(wires) = wires_meeting(alloc, row.fail_at, row.waiting.at_wires(pair)) else {
        return None;
    };
    let Some(gates) = gates_meeting(alloc, row.waiting.at_gates(pair)) else {
        drop(wires);
        return None;
    };
    Some(Stage { wires, gates })
}

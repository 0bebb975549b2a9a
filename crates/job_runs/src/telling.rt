//! What is printed of a row.
use crate::gates::MeetingGate;
use crate::row::Row;
use crate::stage::Stage;
use crate::wires::MeetingWire;
use command_files::Status;
use outside::MemWire;
use std::{io, str};

/// Prints what came of the command of a row, which stands in the line of this number: the status, and, where they are
/// told, the text and what the wires accepted; then who met whom.
pub fn tell(
    rt: &impl Print,
    line: u32,
    row: Row<'_>,
    status: Status,
    text: &[u8],
    stage: &Stage<'_>,
) -> io::Result<()> {
    tell_status(rt, line, status)?;
    if row.told {
        tell_text(rt, text)?;
        tell_wires(rt, &stage.wires)?;
    }
    tell_meetings(rt, &stage.gates, &stage.wires)
}

/// Prints the number of the row's line, and the status.
fn tell_status(rt: &impl Print, line: u32, status: Status) -> io::Result<()> {
    println!(rt; "row {line}: {status:?}")
}

/// Prints the text that was taken.
fn tell_text(rt: &impl Print, text: &[u8]) -> io::Result<()> {
    let text = str::from_utf8(text).unwrap_or("no text");
    println!(rt; "{text}")
}

/// Prints what the wires accepted: the port, counted from 0, and the first slot, the flow and the units of each run.
fn tell_wires(rt: &impl Print, wires: &[MeetingWire<'_>]) -> io::Result<()> {
    for port in 0..wires.len() {
        tell_wire(rt, port, wires[port].accepted())?;
    }
    Ok(())
}

/// Prints what the wire of a port accepted.
fn tell_wire(rt: &impl Print, port: usize, wire: &MemWire) -> io::Result<()> {
    for index in 0..wire.len() {
        let (slot, flow, units) = wire.run(index);
        println!(rt; "wire {port}: {slot} {flow} {units}")?;
    }
    Ok(())
}

/// Prints for the first two clients whether the gate was passed where it waits, and met the other one there; and
/// whether a wire gave up.
fn tell_meetings(
    rt: &impl Print,
    gates: &[MeetingGate<'_>],
    wires: &[MeetingWire<'_>],
) -> io::Result<()> {
    let first = has_met(gates, 0);
    let second = has_met(gates, 1);
    let gave_up = has_given_up(wires);
    println!(rt; "gates met {first} {second}, a wire gave up {gave_up}")
}

/// Whether the gate of a client, counted from 0, was passed where it waits, and did not give up.
fn has_met(gates: &[MeetingGate<'_>], client: usize) -> bool {
    match gates.get(client) {
        Some(gate) => gate.passed() && !gate.gave_up(),
        None => false,
    }
}

/// Whether one of the wires gave up.
fn has_given_up(wires: &[MeetingWire<'_>]) -> bool {
    for wire in wires {
        if wire.gave_up() {
            return true;
        }
    }
    false
}

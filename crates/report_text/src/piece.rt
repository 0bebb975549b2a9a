//! The piece in which the end of a text waits for a sink.
ghost use Rattle.std.specs.Prelude.{◌≡◌, ◌+◌, ◌*◌, ◌≤◌, ◌++◌, [], IfOk, OnOk, length};
ghost use Rattle.std.specs.List.{flat_map};
ghost use Rattle.coflow_units.specs.Text.{ended, spaced};
ghost use Rattle.report_text.specs.declared.piece.TheConstants.{FLOW_BYTES, ROOM};
ghost use Rattle.report_text.specs.Puts.{Faults, Puts};
ghost use Rattle.report_text.specs.Text.{run_line};
ghost use Rattle.run_list.specs.Runs.{run_of};

use crate::numbers::write_flows;
use coflow_units::NoMemory;
use itoa::Buffer;
use outside::{Failed, Sink, write_all};
use std::alloc::Global;
use std::marker::Model;

/// How many bytes a piece has room for.
const ROOM: usize = 65_536;

/// How many flows are put at once. There is room for them in an empty piece.
const FLOWS_AT_ONCE: usize = 1_024;

/// How many bytes a flow has at most: a space and ten digits.
const FLOW_BYTES: usize = 11;

/// The bytes that wait for a sink. Those that are put go behind them, and where there is no room for more the sink
/// takes them all. `Failed` is the sink's; after it the piece is of no use.
#[derive(Drop)]
pub(crate) struct Piece {
    bytes: Vec<u8>,
    filled: usize,
}

impl Model for Piece {
    ghost use Rattle.std.specs.Prelude.{◌≡◌, ◌≤◌, List, ℕ, length, take};
    ghost use Rattle.report_text.specs.declared.piece.TheConstants.{ROOM};

    ghost Value = { List ℕ };

    ghost view = { λ s. take s.filled s.bytes.items };

    ghost invariant = { λ s. (length s.bytes.items ≡ ROOM) × (s.filled ≤ ROOM) };
}

impl Piece {
    /// An empty piece. The error is want of memory.
    pub(crate) fn new(alloc: Global) -> Result<Piece, NoMemory>
        ensures { IfOk result (λ piece. piece ≡ []) }
    {
        let bytes = vec![in alloc; 0u8; ROOM]?;
        Ok(Piece { bytes, filled: 0 })
    }

    /// Has the sink take all bytes.
    pub(crate) fn flush<K: Sink>(&mut self, sink: &mut K) -> Result<(), Failed>
        ensures faults { Faults (K.faults sink.old) (K.faults sink.new) result }
        ensures taken { Puts (K.taken sink.old) (K.taken sink.new) self.old self.new [] result }
        ensures emptied { OnOk result (self.new ≡ []) }
    {
        write_all(sink, &self.bytes[..self.filled])?;
        self.filled = 0;
        Ok(())
    }

    /// Has the sink take all bytes, unless there is room for so many more.
    fn make_room<K: Sink>(&mut self, sink: &mut K, more: usize) -> Result<(), Failed>
        requires { more ≤ ROOM }
        ensures faults { Faults (K.faults sink.old) (K.faults sink.new) result }
        ensures taken { Puts (K.taken sink.old) (K.taken sink.new) self.old self.new [] result }
        ensures room { OnOk result (length self.new + more ≤ ROOM) }
    {
        if self.filled + more > ROOM {
            return self.flush(sink);
        }
        Ok(())
    }

    /// Puts bytes for which there is room.
    fn append(&mut self, bytes: &[u8])
        requires { length self.old + length bytes.now ≤ ROOM }
        ensures { self.new ≡ self.old ++ bytes.now }
    {
        let end = self.filled + bytes.len();
        self.bytes[self.filled..end].copy_from_slice(bytes);
        self.filled = end;
    }

    /// Puts the numbers of flows for which there is room, each behind a space.
    fn append_flows(&mut self, flows: &[u32])
        requires { length self.old + FLOW_BYTES * length flows.now ≤ ROOM }
        ensures { self.new ≡ self.old ++ flat_map spaced flows.now }
    {
        let start = self.filled;
        self.filled = write_flows(flows, &mut self.bytes, start);
    }

    /// Puts some bytes.
    pub(crate) fn put<K: Sink>(&mut self, sink: &mut K, bytes: &[u8]) -> Result<(), Failed>
        requires { length bytes.now ≤ ROOM }
        ensures faults { Faults (K.faults sink.old) (K.faults sink.new) result }
        ensures taken { Puts (K.taken sink.old) (K.taken sink.new) self.old self.new bytes.now result }
    {
        self.make_room(sink, bytes.len())?;
        self.append(bytes);
        Ok(())
    }

    /// Puts a number behind a space.
    fn put_number<K: Sink>(&mut self, sink: &mut K, number: u64) -> Result<(), Failed>
        ensures faults { Faults (K.faults sink.old) (K.faults sink.new) result }
        ensures taken { Puts (K.taken sink.old) (K.taken sink.new) self.old self.new (spaced number) result }
    {
        let mut buffer = Buffer::new();
        self.put(sink, b" ")?;
        self.put(sink, buffer.format(number).as_bytes())
    }

    /// Puts the numbers of flows, each behind a space.
    fn put_flows<K: Sink>(&mut self, sink: &mut K, flows: &[u32]) -> Result<(), Failed>
        ensures faults { Faults (K.faults sink.old) (K.faults sink.new) result }
        ensures taken { Puts (K.taken sink.old) (K.taken sink.new) self.old self.new (flat_map spaced flows.now)
            result }
    {
        let mut rest = flows;
        while !rest.is_empty() {
            let (some, behind) = rest.split_at(rest.len().min(FLOWS_AT_ONCE));
            self.make_room(sink, some.len() * FLOW_BYTES)?;
            self.append_flows(some);
            rest = behind;
        }
        Ok(())
    }

    /// Puts the line of a run of so many slots that serves the flows.
    pub(crate) fn put_run<K: Sink>(
        &mut self,
        sink: &mut K,
        slots: u64,
        flows: &[u32],
    ) -> Result<(), Failed>
        ensures faults { Faults (K.faults sink.old) (K.faults sink.new) result }
        ensures taken { Puts (K.taken sink.old) (K.taken sink.new) self.old self.new
            (ended (run_line (run_of slots flows.now))) result }
    {
        self.put(sink, b"run")?;
        self.put_number(sink, slots)?;
        self.put_flows(sink, flows)?;
        self.put(sink, b"\n")
    }
}

//! A sink in memory.
ghost use Rattle.std.specs.Prelude.{◌≡◌, ◌+◌, ◌-◌, ◌^◌, ◌<◌, ◌≤◌, [], IfOk, OnErr, OnOk, Some, length, min, vec_capacity};
ghost use Rattle.outside.specs.MemSink.{limit};
ghost use Rattle.outside.specs.Rose.{Rose};
ghost use Rattle.outside.specs.Sink.{Takes};

use crate::sink::{Failed, Sink};
use coflow_units::NoMemory;
use std::alloc::Global;

/// A sink in memory. It keeps what it takes, up to a number of bytes in all, and fails from there on.
#[derive(Drop)]
pub struct MemSink {
    taken: Vec<u8>,
    limit: usize,
    faults: u64,
    ghost has_room: { limit ≤ vec_capacity taken },
}

impl MemSink {
    /// A sink with room for `room` bytes. With `fail_after` it takes that many bytes in all and then fails. A full room
    /// is a fault. The error is want of memory.
    pub fn new(alloc: Global, room: usize, fail_after: Option<u64>) -> Result<MemSink, NoMemory>
        ensures taken { IfOk result (λ s. s.taken.items ≡ []) }
        ensures limit { IfOk result (λ s. s.limit ≡ limit room fail_after) }
        ensures faults { IfOk result (λ s. s.faults ≡ 0) }
    {
        let limit = match fail_after {
            Some(count) => (room as u64).min(count) as usize,
            None => room,
        };
        let taken = Vec::with_capacity(alloc, room)?;
        Ok(MemSink {
            taken,
            limit,
            faults: 0,
        })
    }

    /// What the sink took. It takes no memory.
    pub fn bytes(&self) -> &[u8]
        ensures { result.now ≡ self.now.taken.items }
    {
        self.taken.as_slice()
    }
}

impl Sink for MemSink {
    ghost use Rattle.std.specs.Prelude.{Some};

    ghost faults = { λ s. s.faults };

    ghost taken = { λ s. Some s.taken.items };

    /// Takes what there is room for. It fails exactly where none is left for a piece that is not empty.
    fn write(&mut self, piece: &[u8]) -> Result<usize, Failed>
        ensures later { self.old.faults ≤ self.new.faults }
        ensures cause { OnErr result (Rose self.old.faults self.new.faults) }
        ensures bound { IfOk result (λ n. n ≤ length piece.now) }
        ensures some { 0 < length piece.now → IfOk result (λ n. 0 < n) }
        ensures taken { Takes (Some self.old.taken.items) (Some self.new.taken.items) piece.now result }
        ensures room { IfOk result (λ n. n ≡ min (self.old.limit - length self.old.taken.items) (length piece.now)) }
        ensures full { OnErr result ((0 < length piece.now) × (self.old.limit ≤ length self.old.taken.items)) }
        ensures count { OnErr result (self.new.faults ≡ min (self.old.faults + 1) (2 ^ 64 - 1)) }
        ensures still { OnOk result (self.new.faults ≡ self.old.faults) }
        ensures limit { self.new.limit ≡ self.old.limit }
    {
        let room = self.limit.saturating_sub(self.taken.len());
        let count = room.min(piece.len());
        if count == 0 && !piece.is_empty() {
            self.faults = self.faults.saturating_add(1);
            return Err(Failed);
        }
        let Ok(()) = self.taken.extend_from_slice(&piece[..count]) else {
            unreachable!()
        };
        Ok(count)
    }
}

//! A wire in memory.
ghost use Rattle.std.specs.Prelude.{◌≡◌, ◌+◌, ◌-◌, ◌^◌, ◌<◌, ◌≤◌, [], if◌then◌else◌, length, min, nat_lt, slice_index_or, vec_capacity, vec_len, IfOk, Some};
ghost use Rattle.outside.specs.MemWire.{front_before, still_before, units_before};
ghost use Rattle.outside.specs.Rose.{Rose};
ghost use Rattle.outside.specs.Wire.{Accepts};

use crate::wire::Wire;
use coflow_units::NoMemory;
use std::alloc::Global;

/// A wire in memory. It keeps the runs that it accepts, and may refuse one unit.
#[derive(Drop)]
pub struct MemWire {
    runs: Vec<(u64, u32, u64)>,
    room: usize,
    before: Option<u64>,
    faults: u64,
    ghost has_room: { room ≤ vec_capacity runs },
}

impl MemWire {
    /// A wire with room for `room` runs. Unit number `fail_at`, counted from 1 over all units sent, is not accepted,
    /// once; with 0, as with none, no unit fails. A full room is a fault. The error is want of memory.
    pub fn new(alloc: Global, room: usize, fail_at: Option<u64>) -> Result<MemWire, NoMemory>
        ensures runs { IfOk result (λ w. w.runs.items ≡ []) }
        ensures room { IfOk result (λ w. w.room ≡ room) }
        ensures before { IfOk result (λ w. w.before ≡ units_before fail_at) }
        ensures faults { IfOk result (λ w. w.faults ≡ 0) }
    {
        let before = match fail_at {
            Some(number) => number.checked_sub(1),
            None => None,
        };
        let runs = Vec::with_capacity(alloc, room)?;
        Ok(MemWire {
            runs,
            room,
            before,
            faults: 0,
        })
    }

    /// How many runs the wire holds. It takes no memory.
    pub fn len(&self) -> usize
        ensures { result ≡ length self.now.runs.items }
    {
        self.runs.len()
    }

    /// A run: its first slot, its flow and its number of units. It takes no memory.
    pub fn run(&self, index: usize) -> (u64, u32, u64)
        requires { index < length self.now.runs.items }
        ensures { result ≡ slice_index_or self.now.runs.items index result }
    {
        self.runs[index]
    }
}

/// How many of the units come before the one that fails, and how many then come before it still.
fn accepted_before(before: Option<u64>, length: u64) -> (u64, Option<u64>)
    ensures front { result.0 ≡ front_before before length }
    ensures still { result.1 ≡ still_before before length }
{
    match before {
        Some(count) if count < length => (count, None),
        Some(count) => (length, Some(count - length)),
        None => (length, None),
    }
}

impl Wire for MemWire {
    ghost use Rattle.std.specs.Prelude.{Some};

    ghost faults = { λ w. w.faults };

    ghost runs = { λ w. Some w.runs.items };

    /// Accepts what comes before the unit that fails, and nothing where the room is full. The count rises by one, up to
    /// 2^64 - 1, exactly where not all units were accepted.
    fn send(&mut self, slot: u64, flow: u32, length: u64) -> u64
        requires { 1 ≤ length }
        ensures later { self.old.faults ≤ self.new.faults }
        ensures bound { result ≤ length }
        ensures cause { result < length → Rose self.old.faults self.new.faults }
        ensures count { self.new.faults ≡
            (if nat_lt result length then min (self.old.faults + 1) (2 ^ 64 - 1) else self.old.faults) }
        ensures runs { Accepts (Some self.old.runs.items) (Some self.new.runs.items) slot flow result }
        ensures accepts { result ≡ (if nat_lt (vec_len self.old.runs) self.old.room then front_before self.old.before
            length else 0) }
        ensures before { self.new.before ≡
            (if nat_lt (vec_len self.old.runs) self.old.room then still_before self.old.before length
            else self.old.before) }
        ensures room { self.new.room ≡ self.old.room }
    {
        if self.runs.len() >= self.room {
            self.faults = self.faults.saturating_add(1);
            return 0;
        }
        let (count, before) = accepted_before(self.before, length);
        self.before = before;
        if count < length {
            self.faults = self.faults.saturating_add(1);
        }
        if count > 0 {
            let Ok(()) = self.runs.push((slot, flow, count)) else {
                unreachable!()
            };
        }
        count
    }
}

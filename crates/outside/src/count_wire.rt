//! A wire that counts.
ghost use Rattle.std.specs.Prelude.{◌≡◌, ◌+◌, ◌-◌, ◌^◌, ◌≤◌, min};

use crate::wire::Wire;

/// A wire without faults. It accepts all units, counts them, and tells no runs.
#[derive(Clone, Copy, Debug, PartialEq, Eq)]
pub struct CountWire {
    /// The units accepted so far. The number stays at 2^64 - 1 once it is there.
    pub sent: u64,
}

impl Wire for CountWire {
    ghost use Rattle.std.specs.Prelude.{None};

    ghost faults = { λ _. 0 };

    ghost runs = { λ _. None };

    /// Accepts all units.
    fn send(&mut self, slot: u64, flow: u32, length: u64) -> u64
        requires { 1 ≤ length }
        ensures all { result ≡ length }
        ensures sent { self.new.sent ≡ min (self.old.sent + length) (2 ^ 64 - 1) }
    {
        let _run = (slot, flow);
        self.sent = self.sent.saturating_add(length);
        length
    }
}

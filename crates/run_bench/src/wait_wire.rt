//! A wire that takes its time.
use outside::{CountWire, Wire};
use std::thread;
use std::time::{Clock, Duration};

/// A wire without faults. It waits with each send, where it is to wait at all, and then counts the units.
#[derive(Drop)]
pub struct WaitWire<'a, R: Clock> {
    clock: &'a R,
    wait: Duration,
    counted: CountWire,
}

impl<'a, R: Clock> WaitWire<'a, R> {
    /// A wire that accepted nothing yet, and waits so long with each send.
    pub fn new(clock: &'a R, wait: Duration) -> WaitWire<'a, R> {
        WaitWire {
            clock,
            wait,
            counted: CountWire { sent: 0 },
        }
    }

    /// The units accepted so far. The number stays at 2^64 - 1 once it is there.
    pub fn sent(&self) -> u64 {
        self.counted.sent
    }
}

impl<R: Clock> Wire for WaitWire<'_, R> {
    ghost use Rattle.std.specs.Prelude.{None};

    ghost faults = { λ _. 0 };

    ghost runs = { λ _. None };

    /// Waits, and accepts all units.
    fn send(&mut self, slot: u64, flow: u32, length: u64) -> u64 {
        if !self.wait.is_zero() {
            thread::sleep(self.clock, self.wait);
        }
        self.counted.send(slot, flow, length)
    }
}

//! A sink that never fails.
ghost use Rattle.std.specs.Prelude.{◌≡◌, ◌+◌, ◌-◌, ◌^◌, length, min, Ok};

use crate::sink::{Failed, Sink};

/// A sink without faults. It drops what it takes and tells the length alone.
#[derive(Clone, Copy, Drop)]
pub struct SureSink {
    length: u64,
}

impl SureSink {
    /// A sink that took nothing. It takes no memory.
    pub fn new() -> SureSink
        ensures { result.length ≡ 0 }
    {
        SureSink { length: 0 }
    }

    /// How many bytes the sink took. The number stays at 2^64 - 1 once it is there.
    pub fn length(&self) -> u64
        ensures { result ≡ self.now.length }
    {
        self.length
    }
}

impl Sink for SureSink {
    ghost use Rattle.std.specs.Prelude.{None};

    ghost faults = { λ _. 0 };

    ghost taken = { λ _. None };

    /// Takes all of the piece.
    fn write(&mut self, piece: &[u8]) -> Result<usize, Failed>
        ensures all { result ≡ Ok (length piece.now) }
        ensures length { self.new.length ≡ min (self.old.length + length piece.now) (2 ^ 64 - 1) }
    {
        self.length = self.length.saturating_add(piece.len() as u64);
        Ok(piece.len())
    }
}

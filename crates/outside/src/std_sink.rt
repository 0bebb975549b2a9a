//! The standard output as a sink.
ghost use Rattle.std.specs.Prelude.{◌≡◌, ◌≤◌, ◌<◌, ◌⊎◌, IfOk, IsErr, IsFalse, Ok, OnErr, OnOk, length};
ghost use Rattle.std.specs.Io.KnownBytes.{WriteAppends};
ghost use Rattle.outside.specs.Rose.{Rose, RoseOnce};

use crate::sink::{Failed, Sink};
use std::io::{self, Write};

/// A writer of the standard library, such as the standard output, as a sink. It tells no content. A call that fails
/// raises its count of faults by one, up to 2^64 - 1.
#[derive(Drop)]
pub struct StdSink<W: Write + Drop> {
    out: W,
    faults: u64,
}

impl<W: Write + Drop> StdSink<W> {
    /// A sink over a writer. It takes no memory.
    pub fn new(out: W) -> StdSink<W>
        ensures faults { result.faults ≡ 0 }
        ensures out { result.out ≡ out }
    {
        StdSink { out, faults: 0 }
    }
}

/// The answer to a piece, from what the writer answered. It fails exactly where the writer failed, or took nothing of a
/// piece that is not empty, and counts that.
fn answer_to(written: io::Result<usize>, is_empty: bool, faults: &mut u64) -> Result<usize, Failed>
    ensures taken { IfOk result (λ n. written ≡ Ok n) }
    ensures some { IsFalse is_empty → IfOk result (λ n. 0 < n) }
    ensures fails { OnErr result (IsErr written ⊎ (IsFalse is_empty × (written ≡ Ok 0))) }
    ensures later { faults.old ≤ faults.new }
    ensures cause { OnErr result (Rose faults.old faults.new) }
    ensures still { OnOk result (faults.new ≡ faults.old) }
    ensures once { OnErr result (RoseOnce faults.old faults.new) }
{
    match written {
        Ok(count) if count > 0 || is_empty => Ok(count),
        _ => {
            *faults = faults.saturating_add(1);
            Err(Failed)
        }
    }
}

impl<W: Write + Drop> Sink for StdSink<W> {
    ghost use Rattle.std.specs.Prelude.{None};

    ghost faults = { λ s. s.faults };

    ghost taken = { λ _. None };

    /// Writes to the writer. An answer of 0 for a piece that is not empty is a fault. Where the writer tells its bytes:
    /// it took the first ones of the piece, as many as the answer says, and none at a fault.
    fn write(&mut self, piece: &[u8]) -> Result<usize, Failed>
        ensures later { self.old.faults ≤ self.new.faults }
        ensures cause { OnErr result (Rose self.old.faults self.new.faults) }
        ensures still { OnOk result (self.new.faults ≡ self.old.faults) }
        ensures once { OnErr result (RoseOnce self.old.faults self.new.faults) }
        ensures bound { IfOk result (λ n. n ≤ length piece.now) }
        ensures some { 0 < length piece.now → IfOk result (λ n. 0 < n) }
        ensures bytes { WriteAppends (W.contents self.old.out) (W.contents self.new.out) result piece.now }
    {
        let written = self.out.write(piece);
        answer_to(written, piece.is_empty(), &mut self.faults)
    }
}

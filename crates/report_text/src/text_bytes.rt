//! The bytes of a text.
ghost use Rattle.std.specs.Prelude.{◌≡◌, ◌<◌, ◌≤◌, IfOk, List, OnErr, OnOk, Some, length};
ghost use Rattle.outside.specs.Rose.{Rose, RoseOnce};
ghost use Rattle.outside.specs.Sink.{Takes};

use crate::text::Text;
use coflow_units::NoMemory;
use outside::{Failed, Sink};
use std::alloc::Global;

/// A sink that keeps what it takes. It fails where memory is wanting.
#[derive(Drop)]
struct KeptBytes {
    bytes: Vec<u8>,
    faults: u64,
}

impl Sink for KeptBytes {
    ghost faults = { λ s. s.faults };

    ghost taken = { λ s. Some s.bytes.items };

    /// Takes the whole piece, or nothing.
    fn write(&mut self, piece: &[u8]) -> Result<usize, Failed> {
        let Ok(()) = self.bytes.extend_from_slice(piece) else {
            self.faults = self.faults.saturating_add(1);
            return Err(Failed);
        };
        Ok(piece.len())
    }
}

impl Text {
    /// The bytes of the text. The error is want of memory.
    pub fn bytes(&self, alloc: Global) -> Result<Vec<u8>, NoMemory>
        ensures { IfOk result (λ bytes. bytes.items ≡ self.now) }
    {
        let writer = self.writer(alloc)?;
        let mut sink = KeptBytes {
            bytes: Vec::new(alloc),
            faults: 0,
        };
        let Ok(()) = writer.write_to(&mut sink) else {
            drop(sink);
            return Err(NoMemory);
        };
        let KeptBytes { bytes, .. } = sink;
        Ok(bytes)
    }
}

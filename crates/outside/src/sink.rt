//! Sinks: what takes a text.
ghost use Rattle.std.specs.Prelude.{◌≡◌, ℕ, ◌<◌, ◌≤◌, List, Option, length, IfOk, OnErr, OnOk};
ghost use Rattle.outside.specs.Rose.{Rose, RoseOnce};
ghost use Rattle.outside.specs.Sink.{Takes};

/// A call to the outside failed. The count of faults of the object rose.
#[derive(Clone, Copy, Debug, PartialEq, Eq)]
pub struct Failed;

/// What takes bytes, one piece after another.
pub trait Sink {
    /// The count of faults.
    ghost faults: { Self → ℕ };

    /// The bytes taken so far, where they are told.
    ghost taken: { Self → Option (List ℕ) };

    /// Takes the first bytes of the piece, and answers how many.
    ///
    /// `Failed` comes only where the count of faults rose. A sink that takes nothing of a piece that is not empty has
    /// failed. A call that succeeds leaves the count of faults as it was, and one that fails raises it by one, up to
    /// 2^64 - 1, where it stops.
    fn write(&mut self, piece: &[u8]) -> Result<usize, Failed>
        ensures later { faults self.old ≤ faults self.new }
        ensures cause { OnErr result (Rose (faults self.old) (faults self.new)) }
        ensures still { OnOk result (faults self.new ≡ faults self.old) }
        ensures once { OnErr result (RoseOnce (faults self.old) (faults self.new)) }
        ensures bound { IfOk result (λ n. n ≤ length piece.now) }
        ensures some { 0 < length piece.now → IfOk result (λ n. 0 < n) }
        ensures taken { Takes (taken self.old) (taken self.new) piece.now result };
}

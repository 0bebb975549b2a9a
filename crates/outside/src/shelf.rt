//! Shelves: where files lie, and the places at which they are read.
ghost use Rattle.std.specs.Prelude.{◌≡◌, ℕ, ◌<◌, ◌≤◌, Bool, true, Option, length, is_ok, OnErr, OnOk};
ghost use Rattle.std.specs.Io.{ReadsAtMost};
ghost use Rattle.outside.specs.declared.shelf.Place4.{Place4};
ghost use Rattle.outside.specs.Rose.{Rose, RoseOnce};
ghost use Rattle.outside.specs.Shelf.{Told, Reads, SameElsewhere, Starts};

use crate::sink::Failed;

/// A place at which a file is read. Places do not disturb each other.
#[derive(Clone, Copy, Debug, PartialEq, Eq)]
pub enum Place4 {
    Trace,
    Weights,
    Report,
    Script,
}

/// What holds files by their names.
pub trait Shelf {
    /// The count of faults.
    ghost faults: { Self → ℕ };

    /// The places that are started.
    ghost started: { Self → Place4 → Bool };

    /// The files, their counts of faults and what is left at each place, where they are told.
    ghost told: { Self → Option Told };

    /// Sets a name at a place, so that the bytes under the name are read there from their start.
    ///
    /// `Failed` comes only where the count of faults rose, and that of the name where it is told. The place is then not
    /// started. A call that succeeds leaves the count of faults as it was, and one that fails raises it by one, up to
    /// 2^64 - 1, where it stops. The same holds of the counts of the files, where they are told: that of this file
    /// alone changes.
    fn start(&mut self, place: Place4, name: &str) -> Result<(), Failed>
        ensures later { faults self.old ≤ faults self.new }
        ensures cause { OnErr result (Rose (faults self.old) (faults self.new)) }
        ensures still { OnOk result (faults self.new ≡ faults self.old) }
        ensures once { OnErr result (RoseOnce (faults self.old) (faults self.new)) }
        ensures started { started self.new place ≡ is_ok result }
        ensures others { SameElsewhere place (started self.old) (started self.new) }
        ensures told { Starts (told self.old) (told self.new) place name.now result };

    /// Moves the first bytes that are left at a place into the buffer, and answers how many. It answers 0 where nothing
    /// is left.
    ///
    /// `Failed` comes only where the count of faults rose, and that of the name at the place where it is told. The
    /// place is then as it was. A call that succeeds leaves the count of faults as it was, and one that fails raises it
    /// by one, up to 2^64 - 1, where it stops. The same holds of the counts of the files, where they are told: that of
    /// this file alone changes.
    fn read(&mut self, place: Place4, buffer: &mut [u8]) -> Result<usize, Failed>
        requires room { 0 < length buffer.old }
        requires started { started self.old place ≡ true }
        ensures later { faults self.old ≤ faults self.new }
        ensures cause { OnErr result (Rose (faults self.old) (faults self.new)) }
        ensures still { OnOk result (faults self.new ≡ faults self.old) }
        ensures once { OnErr result (RoseOnce (faults self.old) (faults self.new)) }
        ensures bound { ReadsAtMost result buffer.new }
        ensures started { started self.new ≡ started self.old }
        ensures told { Reads (told self.old) (told self.new) place buffer.new result };
}

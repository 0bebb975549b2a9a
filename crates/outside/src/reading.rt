//! Reading a file to its end.
ghost use Rattle.std.specs.Prelude.{◌≡◌, ◌≢◌, ◌≤◌, Err, true, length, IfOk};
ghost use Rattle.outside.specs.Rose.{Rose, RoseOnce};
ghost use Rattle.outside.specs.Shelf.{ReadsWhole};

use crate::shelf::{Place4, Shelf};
use crate::sink::Failed;
use std::alloc::{AllocError, Global};

/// Why a file was not read to its end.
#[derive(Clone, Copy, Debug, PartialEq, Eq)]
pub enum ReadStop {
    /// The shelf failed.
    Fault,
    /// More bytes were left than were asked for at most.
    TooLong,
    /// No memory was to be had.
    NoMemory,
}

impl From<Failed> for ReadStop {
    ghost use Rattle.std.specs.Prelude.{◌≡◌};
    ghost use Rattle.outside.specs.declared.reading.ReadStop.TheVariants.{Fault};

    ghost from_gives = { λ _ e. e ≡ Fault };

    fn from(_failed: Failed) -> ReadStop {
        ReadStop::Fault
    }
}

impl From<AllocError> for ReadStop {
    ghost use Rattle.std.specs.Prelude.{◌≡◌};
    ghost use Rattle.outside.specs.declared.reading.ReadStop.TheVariants.{NoMemory};

    ghost from_gives = { λ _ e. e ≡ NoMemory };

    fn from(_error: AllocError) -> ReadStop {
        ReadStop::NoMemory
    }
}

/// Reads what is left at a started place to its end: at most `most` bytes.
///
/// `Fault` comes only where the shelf's count of faults rose, and that of the name at the place where it is told.
/// `TooLong` comes exactly where `most + 1` bytes were taken. The first fault of the shelf is the last call: `Fault`
/// raises the count by one, up to 2^64 - 1, and any other answer leaves it as it was.
pub fn read_all<H: Shelf>(
    alloc: Global,
    shelf: &mut H,
    place: Place4,
    most: usize,
) -> Result<Vec<u8>, ReadStop>
    requires { H.started shelf.old place ≡ true }
    ensures later { H.faults shelf.old ≤ H.faults shelf.new }
    ensures fault { result ≡ Err ReadStop.Fault → Rose (H.faults shelf.old) (H.faults shelf.new) }
    ensures once { result ≡ Err ReadStop.Fault → RoseOnce (H.faults shelf.old) (H.faults shelf.new) }
    ensures still { result ≢ Err ReadStop.Fault → H.faults shelf.new ≡ H.faults shelf.old }
    ensures short { IfOk result (λ bytes. length bytes.items ≤ most) }
    ensures started { H.started shelf.new ≡ H.started shelf.old }
    ensures told { ReadsWhole (H.told shelf.old) (H.told shelf.new) place most result }
{
    let mut bytes = Vec::new(alloc);
    let mut buffer = [0u8; 4096];
    loop {
        let room = (most - bytes.len()).min(buffer.len() - 1) + 1;
        let Ok(count) = shelf.read(place, &mut buffer[..room]) else {
            drop(bytes);
            return Err(ReadStop::Fault);
        };
        if count == 0 {
            return Ok(bytes);
        }
        if count > most - bytes.len() {
            drop(bytes);
            return Err(ReadStop::TooLong);
        }
        let Ok(()) = bytes.extend_from_slice(&buffer[..count]) else {
            drop(bytes);
            return Err(ReadStop::NoMemory);
        };
    }
}

//! What is wrong with the text of a trace.
ghost use Rattle.std.specs.Prelude.{◌≡◌};

use coflow_units::Quantity;
use std::alloc::{AllocError, AllocFailed};
use thiserror::Error;

/// The first fault of a text, in reading order. Lines and fields count from 1, and blank lines are counted.
#[derive(Clone, Copy, Debug, PartialEq, Eq, Error)]
pub enum TraceFault {
    /// No line has fields, or the first that has some has not just two, both numbers.
    #[error("bad header")]
    BadHeader,
    /// This field is missing, has a wrong form, or is one too many.
    #[error("line {line} field {field}")]
    BadLine {
        line: u32,
        field: u32,
    },
    /// The text has fewer lines of coflows than its header says.
    #[error("have {have} lines, want {want}")]
    Missing {
        have: u32,
        want: u32,
    },
    /// This line is one more than the header says.
    #[error("extra line {line}")]
    Extra {
        line: u32,
    },
    /// An earlier line has this id.
    #[error("line {line} repeats id {id}")]
    DuplicateId {
        line: u32,
        id: u32,
    },
    /// This location is greater than the number of ports in the header. It is told as 2^64 - 1 where it is greater than
    /// that.
    #[error("line {line} port {port} out of range")]
    PortRange {
        line: u32,
        port: u64,
    },
    /// This quantity is outside its range. A count is told as 2^64 - 1 where it is greater. Megabytes are told rounded
    /// up.
    #[error("line {line}: {which:?} of {count} out of range")]
    Limit {
        line: u32,
        which: Quantity,
        count: u64,
    },
    /// No memory was to be had.
    #[error("no memory")]
    NoMemory,
}

impl From<AllocError> for TraceFault {
    ghost use Rattle.trace_reader.specs.declared.fault.TraceFault.TheVariants.{NoMemory};

    ghost from_gives = { λ _ e. e ≡ NoMemory };

    fn from(_error: AllocError) -> Self {
        TraceFault::NoMemory
    }
}

impl<T: Drop> From<AllocFailed<T>> for TraceFault {
    ghost use Rattle.trace_reader.specs.declared.fault.TraceFault.TheVariants.{NoMemory};

    ghost from_gives = { λ _ e. e ≡ NoMemory };

    fn from(_error: AllocFailed<T>) -> Self {
        TraceFault::NoMemory
    }
}

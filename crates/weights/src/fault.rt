//! What is wrong with a text of weights.
ghost use Rattle.std.specs.Prelude.{◌≡◌};

use coflow_units::{NoMemory, Quantity};
use std::alloc::{AllocError, AllocFailed};
use thiserror::Error;

/// The first fault of a text of weights, in reading order. Lines and fields count from 1, and blank lines are counted.
#[derive(Clone, Copy, Debug, PartialEq, Eq, Error)]
pub enum WeightsFault {
    /// This field is missing, is no number, or is one too many.
    #[error("line {line}: field {field} is not as it should be")]
    BadLine {
        line: u32,
        field: u32,
    },
    /// No coflow of the trace has this id, which is told as 2^64 - 1 where it is greater.
    #[error("line {line}: no coflow has the id {id}")]
    UnknownId {
        line: u32,
        id: u64,
    },
    /// An earlier line has this id.
    #[error("line {line}: an earlier line has the id {id}")]
    DuplicateId {
        line: u32,
        id: u32,
    },
    /// This quantity is outside its range. A count is told as 2^64 - 1 where it is greater.
    #[error("line {line}: {which:?} of {count} is outside its range")]
    Limit {
        line: u32,
        which: Quantity,
        count: u64,
    },
    /// No memory was to be had.
    #[error("no memory")]
    NoMemory,
}

impl From<AllocError> for WeightsFault {
    ghost use Rattle.weights.specs.declared.fault.WeightsFault.TheVariants.{NoMemory};

    ghost from_gives = { λ _ e. e ≡ NoMemory };

    fn from(_error: AllocError) -> Self {
        WeightsFault::NoMemory
    }
}

impl<T: Drop> From<AllocFailed<T>> for WeightsFault {
    ghost use Rattle.weights.specs.declared.fault.WeightsFault.TheVariants.{NoMemory};

    ghost from_gives = { λ _ e. e ≡ NoMemory };

    fn from(_error: AllocFailed<T>) -> Self {
        WeightsFault::NoMemory
    }
}

impl From<NoMemory> for WeightsFault {
    ghost use Rattle.weights.specs.declared.fault.WeightsFault.TheVariants.{NoMemory};

    ghost from_gives = { λ _ e. e ≡ NoMemory };

    fn from(_error: NoMemory) -> Self {
        WeightsFault::NoMemory
    }
}

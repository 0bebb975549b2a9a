//! What is wrong with a script.
ghost use Rattle.std.specs.Prelude.{◌≡◌};

use coflow_units::{NoMemory, Quantity};
use std::alloc::{AllocError, AllocFailed};
use thiserror::Error;

/// The first fault of a script, in reading order. Lines and fields count from 1, and blank lines are counted.
#[derive(Clone, Copy, Debug, PartialEq, Eq, Error)]
pub enum ScriptFault {
    /// This field is missing, is not of its form, is an id that no coflow has, or is one too many.
    #[error("line {line}: field {field} is not as it should be")]
    Bad { line: u32, field: u32 },
    /// This quantity is outside its range. A count is told as 2^64 - 1 where it is greater.
    #[error("{which:?} of {count} is outside its range")]
    Limit { which: Quantity, count: u64 },
    /// No memory was to be had.
    #[error("no memory")]
    NoMemory,
}

impl From<AllocError> for ScriptFault {
    ghost use Rattle.workload.specs.declared.fault.ScriptFault.TheVariants.{NoMemory};

    ghost from_gives = { λ _ e. e ≡ NoMemory };

    fn from(_error: AllocError) -> Self {
        ScriptFault::NoMemory
    }
}

impl<T: Drop> From<AllocFailed<T>> for ScriptFault {
    ghost use Rattle.workload.specs.declared.fault.ScriptFault.TheVariants.{NoMemory};

    ghost from_gives = { λ _ e. e ≡ NoMemory };

    fn from(_error: AllocFailed<T>) -> Self {
        ScriptFault::NoMemory
    }
}

impl From<NoMemory> for ScriptFault {
    ghost use Rattle.workload.specs.declared.fault.ScriptFault.TheVariants.{NoMemory};

    ghost from_gives = { λ _ e. e ≡ NoMemory };

    fn from(_error: NoMemory) -> Self {
        ScriptFault::NoMemory
    }
}

//! What is wrong with a text of an order.
ghost use Rattle.std.specs.Prelude.{◌≡◌};

use coflow_units::NoMemory;
use std::alloc::{AllocError, AllocFailed};
use thiserror::Error;

/// The first fault of a text of an order, in reading order. Lines and fields count from 1, and blank lines are counted.
#[derive(Clone, Copy, Debug, PartialEq, Eq, Error)]
pub enum OrderFault {
    /// This field is no number, or is one too many.
    #[error("line {line}: field {field} is not as it should be")]
    BadLine { line: u32, field: u32 },
    /// No coflow has this id, which is told as 2^64 - 1 where it is greater.
    #[error("line {line}: no coflow has the id {id}")]
    UnknownId { line: u32, id: u64 },
    /// An earlier line has this id.
    #[error("line {line}: an earlier line has the id {id}")]
    DuplicateId { line: u32, id: u32 },
    /// So many lines have an id, and there are so many coflows.
    #[error("have {have} lines, want {want}")]
    Missing { have: u32, want: u32 },
    /// No memory was to be had.
    #[error("no memory")]
    NoMemory,
}

impl From<AllocError> for OrderFault {
    ghost use Rattle.orders.specs.declared.fault.OrderFault.TheVariants.{NoMemory};

    ghost from_gives = { λ _ e. e ≡ NoMemory };

    fn from(_error: AllocError) -> Self {
        OrderFault::NoMemory
    }
}

impl<T: Drop> From<AllocFailed<T>> for OrderFault {
    ghost use Rattle.orders.specs.declared.fault.OrderFault.TheVariants.{NoMemory};

    ghost from_gives = { λ _ e. e ≡ NoMemory };

    fn from(_error: AllocFailed<T>) -> Self {
        OrderFault::NoMemory
    }
}

impl From<NoMemory> for OrderFault {
    ghost use Rattle.orders.specs.declared.fault.OrderFault.TheVariants.{NoMemory};

    ghost from_gives = { λ _ e. e ≡ NoMemory };

    fn from(_error: NoMemory) -> Self {
        OrderFault::NoMemory
    }
}

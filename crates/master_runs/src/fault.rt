//! Why a list is not read.
use std::alloc::AllocFailed;

/// Why a list is not read.
#[derive(Clone, Copy, Debug, thiserror::Error)]
pub enum ListFault {
    /// The line with this number is not as it should be.
    #[error("line {0}")]
    Line(u32),
    /// The coflow with this number has no weight, or one that is out of range.
    #[error("no weight of coflow {0}")]
    Weight(u32),
    #[error("no memory")]
    NoMemory,
}

impl<T: Drop> From<AllocFailed<T>> for ListFault {
    fn from(_: AllocFailed<T>) -> ListFault {
        ListFault::NoMemory
    }
}

//! Why a journal is not replayed to its end.
use std::alloc::AllocFailed;

/// Why a journal is not replayed to its end.
#[derive(Clone, Copy, Debug, PartialEq)]
pub enum ReplayFault {
    /// A plain master answers a command otherwise, or takes none such.
    OtherReply,
    NoMemory,
}

impl<T: Drop> From<AllocFailed<T>> for ReplayFault {
    fn from(_: AllocFailed<T>) -> ReplayFault {
        ReplayFault::NoMemory
    }
}

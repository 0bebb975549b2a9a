//! Why a hall is not played to its end.
use coflow_units::NoMemory;
use std::alloc::{AllocError, AllocFailed};
use std::io;

/// Why a hall is not played to its end.
#[derive(Debug, Drop, thiserror::Error)]
pub enum Stop {
    #[error("usage: hall_runs TRACE SEED COMMANDS [tell|time|mutex]")]
    Usage,
    #[error("no file is read")]
    File,
    #[error("no trace is read")]
    Trace,
    #[error("the trace makes no table")]
    Table,
    #[error("an answer is missing")]
    Missing,
    #[error("no memory")]
    NoMemory,
    #[error("nothing more is printed")]
    Output(#[from] io::Error),
}

impl From<NoMemory> for Stop {
    fn from(_: NoMemory) -> Stop {
        Stop::NoMemory
    }
}

impl From<AllocError> for Stop {
    fn from(_: AllocError) -> Stop {
        Stop::NoMemory
    }
}

impl<T: Drop> From<AllocFailed<T>> for Stop {
    fn from(_: AllocFailed<T>) -> Stop {
        Stop::NoMemory
    }
}

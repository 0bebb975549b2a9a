//! Why a row is not carried out to its end.
use coflow_units::NoMemory;
use std::alloc::{AllocError, AllocFailed};
use std::io;

/// Why a row is not carried out to its end.
#[derive(Debug, Drop, thiserror::Error)]
pub enum JobFault {
    #[error("no memory")]
    NoMemory,
    #[error("nothing more is printed")]
    Output(#[from] io::Error),
}

impl From<NoMemory> for JobFault {
    fn from(_: NoMemory) -> JobFault {
        JobFault::NoMemory
    }
}

impl From<AllocError> for JobFault {
    fn from(_: AllocError) -> JobFault {
        JobFault::NoMemory
    }
}

impl<T: Drop> From<AllocFailed<T>> for JobFault {
    fn from(_: AllocFailed<T>) -> JobFault {
        JobFault::NoMemory
    }
}

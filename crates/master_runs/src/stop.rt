//! Why a list is not played to its end.
use crate::fault::ListFault;
use coflow_units::NoMemory;
use std::io;
use test_support::FileFault;

/// Why a list is not played to its end.
#[derive(Debug, Drop, thiserror::Error)]
pub enum Stop {
    #[error("usage: master_runs TRACE LIST")]
    Usage,
    #[error("{0}")]
    File(#[from] FileFault),
    #[error("{0}")]
    List(#[from] ListFault),
    #[error("no memory")]
    NoMemory,
    #[error("nothing more is printed")]
    Output(#[from] io::Error),
}

impl From<NoMemory> for Stop {
    fn from(_: NoMemory) -> Stop {
        Stop::NoMemory
    }
}

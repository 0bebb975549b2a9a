//! Why nothing was measured.
use coflow_units::NoMemory;
use slot_runner::Ran;
use std::alloc::{AllocError, AllocFailed};
use std::io;
use test_support::FileFault;

/// Why nothing was measured.
#[derive(Debug, Drop, thiserror::Error)]
pub enum Stop {
    #[error("usage: run_bench TRACE AGENTS RUNS [time [MICROSECONDS]]")]
    Usage,
    #[error("{0}")]
    File(#[from] FileFault),
    #[error("a run came to {0:?}")]
    Ended(Ran),
    #[error("no memory")]
    NoMemory,
    #[error("nothing more is printed")]
    Output(#[from] io::Error),
}

impl From<NoMemory> for Stop {
    fn from(_: NoMemory) -> Stop {
        Stop::NoMemory
    }
}

impl From<AllocError> for Stop {
    fn from(_: AllocError) -> Stop {
        Stop::NoMemory
    }
}

impl<T: Drop> From<AllocFailed<T>> for Stop {
    fn from(_: AllocFailed<T>) -> Stop {
        Stop::NoMemory
    }
}

impl From<Ran> for Stop {
    fn from(ran: Ran) -> Stop {
        Stop::Ended(ran)
    }
}

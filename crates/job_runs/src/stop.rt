//! Why rows are not carried out to their end.
use crate::fault::JobFault;
use test_support::FileFault;

/// Why rows are not carried out to their end.
#[derive(Debug, Drop, thiserror::Error)]
pub(crate) enum Stop {
    #[error("usage: job_runs ROWS")]
    Usage,
    #[error("{0}")]
    File(#[from] FileFault),
    /// The line with this number is no row.
    #[error("line {0}")]
    Line(u32),
    #[error("no memory")]
    NoMemory,
    #[error("nothing more is printed")]
    Output,
    #[error("{0}")]
    Job(#[from] JobFault),
}

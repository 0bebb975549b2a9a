//! Why a text gives no table.
use flow_table::TableFault;
use thiserror::Error;
use trace_reader::TraceFault;

/// Why a text gives no table.
#[derive(Clone, Copy, Debug, PartialEq, Eq, Error)]
pub enum TextFault {
    /// The text has more than 2^26 bytes.
    #[error("the text is too long")]
    TooLong,
    /// The text is no trace.
    #[error("{0}")]
    Trace(TraceFault),
    /// The trace makes no table.
    #[error("{0}")]
    Table(TableFault),
}

/// Why a file gives no table.
#[derive(Clone, Copy, Debug, PartialEq, Eq, Error)]
pub enum FileFault {
    /// A call to the shelf failed.
    #[error("the file is not read")]
    NotRead,
    /// No memory was to be had for the bytes.
    #[error("no memory")]
    NoMemory,
    /// The bytes give no table.
    #[error("{0}")]
    Text(TextFault),
}

//! Why there are no words.
use thiserror::Error;

/// Why there are no words.
#[derive(Clone, Copy, Debug, PartialEq, Eq, Error)]
pub enum WordsFault {
    /// The words are no command line.
    #[error("the words are no command line")]
    Usage,
    /// No memory was to be had.
    #[error("no memory")]
    NoMemory,
}

//! Why a trace gets no table.
ghost use Rattle.std.specs.Prelude.{◌≡◌};

use coflow_units::Quantity;
use std::alloc::AllocError;
use thiserror::Error;

/// Why there is no table.
#[derive(Clone, Copy, Debug, PartialEq, Eq, Error)]
pub enum TableFault {
    /// There is more of this quantity than a table may have: of the units in all, or of the flows.
    #[error("{which:?} of {count} are too many")]
    Limit { which: Quantity, count: u64 },
    /// No memory was to be had.
    #[error("no memory")]
    NoMemory,
}

impl From<AllocError> for TableFault {
    ghost use Rattle.flow_table.specs.declared.fault.TableFault.TheVariants.{NoMemory};

    ghost from_gives = { λ _ e. e ≡ NoMemory };

    fn from(_error: AllocError) -> Self {
        TableFault::NoMemory
    }
}

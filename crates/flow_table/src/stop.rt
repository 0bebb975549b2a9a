//! Why a list of flows ends early.
ghost use Rattle.std.specs.Prelude.{◌≡◌};

use std::alloc::{AllocError, AllocFailed};

/// Why a list of flows ends early.
#[derive(Clone, Copy)]
pub(crate) enum Stop {
    /// There are more flows than a table may have.
    Full,
    /// No memory was to be had.
    NoMemory,
}

impl From<AllocError> for Stop {
    ghost use Rattle.flow_table.specs.declared.stop.Stop.TheVariants.{NoMemory};

    ghost from_gives = { λ _ e. e ≡ NoMemory };

    fn from(_error: AllocError) -> Self {
        Stop::NoMemory
    }
}

impl<T: Drop> From<AllocFailed<T>> for Stop {
    ghost use Rattle.flow_table.specs.declared.stop.Stop.TheVariants.{NoMemory};

    ghost from_gives = { λ _ e. e ≡ NoMemory };

    fn from(_error: AllocFailed<T>) -> Self {
        Stop::NoMemory
    }
}

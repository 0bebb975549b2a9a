//! What a run of `live` comes to.
use coflow_units::{Items, NoMemory};
use live_text::PullLine;
use master_core::Master;

/// A run of `live` that was served to its end: the master of the closed hall, and the lines of the pulls, by client and
/// then by line.
#[derive(Drop)]
pub struct Served {
    pub master: Master,
    pub pulls: Items<PullLine>,
}

/// Why a run of `live` was not served to its end.
#[derive(Clone, Copy, Debug, PartialEq, Eq)]
pub enum LiveFault {
    /// The wire of this ingress port accepted fewer units than it was sent. No further run was opened.
    WireFault { port: u32 },
    /// No memory was to be had.
    NoMemory,
}

impl From<NoMemory> for LiveFault {
    ghost use Rattle.std.specs.Prelude.{◌≡◌};
    ghost use Rattle.live_serving.specs.declared.answer.LiveFault.TheVariants.{NoMemory};

    ghost from_gives = { λ _ e. e ≡ NoMemory };

    fn from(_error: NoMemory) -> LiveFault {
        LiveFault::NoMemory
    }
}

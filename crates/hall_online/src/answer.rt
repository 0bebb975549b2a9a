//! Why an online run has no text.
use coflow_units::NoMemory;

/// Why an online run was not served to its end.
#[derive(Clone, Copy, Debug, PartialEq, Eq)]
pub enum OnlineFault {
    /// The wire of this ingress port accepted fewer units than it was sent. No further run was opened.
    WireFault { port: u32 },
    /// As many orders were published as may be. This would have been the number of the next one.
    TooMany { count: u64 },
    /// No memory was to be had.
    NoMemory,
}

impl From<NoMemory> for OnlineFault {
    ghost use Rattle.std.specs.Prelude.{◌≡◌};
    ghost use Rattle.hall_online.specs.declared.answer.OnlineFault.TheVariants.{NoMemory};

    ghost from_gives = { λ _ e. e ≡ NoMemory };

    fn from(_error: NoMemory) -> OnlineFault {
        OnlineFault::NoMemory
    }
}

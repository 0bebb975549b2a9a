//! Pictures, bars, windows, spans and steps. Slots count from 1.
ghost use Rattle.std.specs.Prelude.{◌≡◌};

use crate::row::PortBars;
use coflow_units::{Items, NoMemory, Side};

/// The bars of a picture: 2^18.
pub const MAX_BARS: u64 = 262_144;

/// A stretch of slots in which a port serves one coflow, from the first to the last, both among them.
#[derive(Clone, Copy, Debug, PartialEq, Eq)]
pub struct Bar {
    pub coflow: u32,
    pub first: u64,
    pub last: u64,
}

/// What a picture shows of a schedule: the ports of one side, and the slots from the first to the last, both shown.
#[derive(Clone, Copy, Debug, PartialEq, Eq)]
pub struct Window {
    pub side: Side,
    pub first: u64,
    pub last: u64,
}

/// Slots from the first to the last, both among them.
#[derive(Clone, Copy, Debug, PartialEq, Eq)]
pub struct Span {
    pub first: u64,
    pub last: u64,
}

/// A step of the curve: a slot in which a coflow is completed, and how many are completed by its end.
#[derive(Clone, Copy, Debug, PartialEq, Eq)]
pub struct Step {
    pub slot: u64,
    pub done: u64,
}

/// Why there are no bars.
#[derive(Clone, Copy, Debug, PartialEq, Eq)]
pub enum BarsFault {
    /// There would be so many bars, more than `MAX_BARS`. The number is 2^64 - 1 where there would be more than that.
    TooMany { bars: u64 },
    /// No memory was to be had.
    NoMemory,
}

impl From<NoMemory> for BarsFault {
    ghost use Rattle.picture.specs.declared.value.BarsFault.TheVariants.{NoMemory};

    ghost from_gives = { λ _ e. e ≡ NoMemory };

    fn from(_error: NoMemory) -> BarsFault {
        BarsFault::NoMemory
    }
}

/// A plan as a picture: the bars of each port in a window of slots, the completions of the coflows and their curve, the
/// places of the coflows in the order, and what the title tells.
#[derive(Drop)]
pub struct Picture {
    pub window: Window,
    /// The bars by port.
    pub rows: Items<PortBars>,
    /// The slots in which the coflows are completed, by number.
    pub ends: Items<u64>,
    pub steps: Items<Step>,
    /// The ids of the coflows, by number.
    pub ids: Items<u32>,
    /// The weights of the coflows, by number.
    pub weights: Items<u64>,
    /// The places of the coflows in the order, by number. Places count from 1.
    pub places: Items<u32>,
    pub cost: u128,
    pub bound: u128,
}

//! What a round comes to.
ghost use Rattle.std.specs.Prelude.{◌≡◌};
ghost use Rattle.live_rounds.specs.Stops.{stop_for};

/// A pull as it was carried out: the number of its client, its line in the script, its coflow, the version that it was
/// told, and the rank of the coflow in it, or 0 where it has none.
#[derive(Clone, Copy, Debug, PartialEq, Eq)]
pub struct PullDone {
    pub client: u32,
    pub line: u32,
    pub coflow: u32,
    pub version: u32,
    pub rank: u32,
}

/// Why a round did not carry out all of its lines.
#[derive(Clone, Copy, Debug, PartialEq, Eq)]
pub enum RoundStop {
    /// A turn found that the journal has so many entries and no room.
    Full(u32),
    /// A session had no call left for a turn.
    Spent,
    /// There is no memory. No command was carried out.
    NoMemory,
}

/// Why a client carries out no more of its lines: a turn found no room in the journal, which has so many entries, or no
/// call was left for one.
#[derive(Clone, Copy, Debug, PartialEq, Eq)]
pub enum TurnStop {
    Full(u32),
    Spent,
}

impl TurnStop {
    /// The same as an answer of the round.
    pub fn of_round(self) -> RoundStop
        ensures { result ≡ stop_for self }
    {
        match self {
            TurnStop::Full(entries) => RoundStop::Full(entries),
            TurnStop::Spent => RoundStop::Spent,
        }
    }
}

//! What an audit answers.
use journal::Reply;
use live_text::Said;

/// The verdict on a printed journal.
#[derive(Clone, Copy, Debug, PartialEq, Eq)]
pub enum Audit {
    /// All that it says is right. These are the numbers of its entries, of its orders and of the slots of its runs.
    Yes {
        entries: u32,
        versions: u32,
        slots: u64,
    },
    /// It is not, and this is the first reason.
    No(AuditReason),
}

/// Why a printed journal is not right. The kinds stand in the order in which they are looked for. `stated` is what the
/// journal says, `real` what it should say. Positions, versions, places and slots count from 1; a client and a line are
/// those of a pull.
#[derive(Clone, Copy, Debug, PartialEq, Eq)]
pub enum AuditReason {
    /// The id of the entry at this position is no coflow's. None before has such an id.
    NoId {
        position: u32,
    },
    /// The master replies otherwise to the entry at this position, and as stated to those before.
    NoEntry {
        position: u32,
        stated: Said,
        real: Reply,
    },
    /// After the last entry a run is open, which begins with this slot.
    NoClose {
        slot: u64,
    },
    /// The order of this version is the first that is not the master's. The two differ first at this place, or one of
    /// them has ended before it. A version that one side lacks counts as an empty order.
    NoOrder {
        version: u32,
        place: u32,
    },
    /// This pull is the first whose rank is not that of its coflow in its version; a version that was not made and an
    /// id that is no coflow's have rank 0.
    NoPull {
        client: u32,
        line: u32,
        stated: u32,
        real: u32,
    },
    /// This pull is the first with a version that was not made, with an id that is no coflow's, or with a lesser
    /// version than a pull of the same client before.
    NoVersion {
        client: u32,
        line: u32,
    },
    /// The stated schedule and that of the closed runs differ first at this slot, or one of them has ended before it.
    NoRun {
        slot: u64,
    },
}

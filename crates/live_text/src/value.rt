//! What the text of a printed journal says. Coflows are told by their ids.
use coflow_units::Items;
use run_list::Runs;

/// The command of an entry. `Register`, `Withdraw` and `Pull` have the id of a coflow, `Reweigh` has also the weight
/// that it gets, and `Open` has the number of slots that the run may have at most.
#[derive(Clone, Copy, Debug, PartialEq, Eq)]
pub enum Word {
    Register(u32),
    Withdraw(u32),
    Publish,
    Pull(u32),
    Open(u64),
    Close,
    Reweigh(u32, u64),
}

/// The reply of an entry. `Version` has the version of the order that was published, and `StillOpen` the first slot of
/// the run that is open. `Rank` has a version and the rank in it, and `Unranked` a version. `Opened` has the first slot
/// of the run, its length and the number of its flows, and `Closed` the first slot. `Weighed` has the weight that went.
#[derive(Clone, Copy, Debug, PartialEq, Eq)]
pub enum Said {
    Joined,
    Already,
    Left,
    NotHere,
    Version(u32),
    StillOpen(u64),
    Rank(u32, u32),
    Unranked(u32),
    Opened(u64, u64, u32),
    Nothing,
    Closed(u64),
    Weighed(u64),
}

/// An entry of the journal: the number of the client, or 0 for the driver, the command and the reply.
#[derive(Clone, Copy, Debug, PartialEq, Eq)]
pub struct EntryLine {
    pub who: u32,
    pub word: Word,
    pub said: Said,
}

/// What a pull was told: the number of the client, that of the line of its script, the id of the coflow, a version, and
/// the rank of the coflow in it, or 0 where it has none.
#[derive(Clone, Copy, Debug, PartialEq, Eq)]
pub struct PullLine {
    pub client: u32,
    pub line: u32,
    pub id: u32,
    pub version: u32,
    pub rank: u32,
}

/// A printed journal: its entries by position, the orders by version, from version 1 on, the pulls by client and then
/// by line, and the schedule as runs of equal slots.
#[derive(Drop)]
pub struct Live {
    pub entries: Items<EntryLine>,
    pub orders: Items<Items<u32>>,
    pub pulls: Items<PullLine>,
    pub runs: Runs,
}

/// The entries of a printed journal: 2^23.
pub const MAX_ENTRIES: u32 = 8_388_608;

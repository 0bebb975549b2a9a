//! What a caller asks of the master, what it is answered, and the entry that the journal keeps of both.

/// What a caller asks of the master. Coflows and ports are told by their numbers.
#[derive(Clone, Copy, Debug, PartialEq, Eq)]
pub enum Command {
    /// The coflow joins.
    Register(u32),
    /// The coflow leaves.
    Withdraw(u32),
    /// The coflows that are present are ordered anew: by bottleneck, select, scale, iterate over the units that they
    /// owe and their weights (Sincronia: Agarwal, Rajakrishnan, Narayan, Agarwal, Shmoys and Vahdat, SIGCOMM 2018).
    Publish,
    /// Asks for the place of the coflow in the newest order.
    Pull(u32),
    /// Opens a run of at most so many slots.
    Open(u64),
    /// Notes that so many units were sent from an ingress port in the open run.
    Short(u32, u64),
    /// Closes the open run.
    Close,
    /// Lets slots pass, up to the one before this slot.
    Skip(u64),
    /// The coflow gets another weight, from 1 to 2^32, which the next order takes.
    Reweigh { coflow: u32, weight: u64 },
}

/// What the master answers. A refusal changes nothing but the journal, and `Full` changes nothing at all.
#[derive(Clone, Copy, Debug, PartialEq, Eq)]
pub enum Reply {
    /// A refusal: the journal has no room. It has this many entries.
    Full(u32),
    /// A refusal: the coflow joined before.
    Already,
    Joined,
    /// A refusal: the coflow has not joined, or has left.
    NotHere,
    Left,
    /// A refusal: a run is open. This is its first slot.
    StillOpen(u64),
    /// The version that the new order has.
    Version(u32),
    /// The newest version, and the place of the coflow in it, counted from 1.
    Rank(u32, u32),
    /// The newest version, in which the coflow has no place.
    Unranked(u32),
    /// A refusal: no coflow of the line owes a unit.
    NothingLeft,
    /// A refusal: this slot comes after the last one, which is 2^41 - 1.
    Late(u64),
    /// The first slot of the run, its length in slots, and how many flows are granted.
    Opened(u64, u64, u32),
    /// A refusal: the ingress port has no grant in an open run.
    NotGranted(u32),
    /// The units that are noted: those that were told, and at most one for each slot of the run.
    Noted(u64),
    /// A refusal: no run is open.
    NoneOpen,
    /// The first slot of the run that was closed.
    Closed(u64),
    /// A refusal: this flow of the line owes units, and none with a lesser number does.
    StillOwed(u32),
    /// The next slot.
    Skipped(u64),
    /// The weight that the coflow had before.
    Weighed(u64),
}

/// A command, who asked it, and how it was answered.
#[derive(Clone, Copy, Debug, PartialEq, Eq)]
pub struct Entry {
    pub who: u32,
    pub command: Command,
    pub reply: Reply,
}

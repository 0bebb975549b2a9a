//! What an online run or a replay may do next.

/// What an online run or a replay does next. Coflows are told by their numbers.
#[derive(Clone, Copy, Debug, PartialEq, Eq)]
pub enum Action {
    /// The coflow joins: it has arrived.
    Register(u32),
    /// The coflow leaves: it owes nothing at the start of an epoch.
    Withdraw(u32),
    /// The coflows that are present are ordered anew.
    Publish,
    /// Those that are present are served for at most so many slots.
    Run(u64),
    /// Nobody owes anything. Slots pass, up to the one before this slot.
    Skip(u64),
    /// All coflows have joined, and none that is present owes anything.
    End,
    /// No more orders may be published. This would have been the number of the next one.
    TooMany(u64),
}

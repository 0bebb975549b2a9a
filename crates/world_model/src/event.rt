//! The steps of a world, what each is answered, and the runs that agents sent.
use master_core::{Command, Reply};

/// One step of one actor. Ports are ingress ports; agents are told by their numbers, from 0.
#[derive(Clone, Copy, Debug, PartialEq, Eq)]
pub enum Event {
    /// A caller asks the master a command that is neither `Short` nor `Close`.
    Ask { who: u32, command: Command },
    /// The driver posts the grant that the port has in the open run.
    Post { port: u32 },
    /// An agent draws the posted grant.
    Draw { agent: u32, port: u32 },
    /// The agent that drew the grant sends so many units of its flow, one in each slot.
    Send { agent: u32, port: u32, units: u64 },
    /// The agent that drew the grant reports how many units it sent.
    Report { agent: u32, port: u32 },
    /// The driver settles the post: by what was reported, or it takes back what nobody drew.
    Settle { port: u32 },
    /// The driver notes at the master what was settled, where that is less than the run's length.
    Note { port: u32 },
    /// The driver closes the open run.
    Close,
}

/// What a step was answered.
#[derive(Clone, Copy, Debug, PartialEq, Eq)]
pub enum Happened {
    /// The master's reply to a command, or to the closing of a run.
    Replied(Reply),
    Posted,
    Drawn,
    Sent,
    Reported,
    /// The units that are settled for the port.
    Settled(u64),
    /// An agent has drawn the grant and has not reported: the word of the port. Nothing changed.
    Busy(u64),
    /// The master's reply to a note.
    Noted(Reply),
    /// The step may not be taken here. Nothing changed.
    Blocked,
    /// There was no memory for one more sent run. Nothing changed.
    NoMemory,
}

/// A run that an agent sent: so many units of the flow from its ingress port, one in each slot from the first slot on.
#[derive(Clone, Copy, Debug, PartialEq, Eq)]
pub struct SentRun {
    pub slot: u64,
    pub flow: u32,
    pub units: u64,
    pub port: u32,
}

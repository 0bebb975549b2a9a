//! What a try to draw a grant, and the settling of a post, come to.
ghost use Rattle.std.specs.Prelude.{◌≡◌};
ghost use Rattle.port_board.specs.Answers.{is_busy, number_sent};

use std::marker::Model;

/// A grant that a seat drew. Only `report` spends it.
pub struct Drawn {
    pub(crate) port: u32,
    pub(crate) slot: u64,
    pub(crate) flow: u32,
    pub(crate) length: u64,
}

impl Model for Drawn {
    ghost use Rattle.port_board.specs.declared.view.Grant.{Grant};
    ghost use Rattle.port_board.specs.Views.{grant};

    ghost Value = { Grant };

    ghost view = { λ d. grant d.port d.slot d.flow d.length };
}

impl Drawn {
    /// The ingress port of the grant.
    pub fn port(&self) -> u32
        ensures { result ≡ self.now.port }
    {
        self.port
    }

    /// The first slot in which the flow may send.
    pub fn slot(&self) -> u64
        ensures { result ≡ self.now.slot }
    {
        self.slot
    }

    /// The flow that may send.
    pub fn flow(&self) -> u32
        ensures { result ≡ self.now.flow }
    {
        self.flow
    }

    /// How many slots the grant has, and so how many units may be sent.
    pub fn length(&self) -> u64
        ensures { result ≡ self.now.length }
    {
        self.length
    }
}

/// What a try to draw at a port came to.
pub enum Draw {
    /// The seat drew this grant.
    Drawn(Drawn),
    /// The word that was loaded is not granted.
    Idle(u64),
    /// The word that was loaded was granted, and the exchange found another.
    Missed { loaded: u64, found: u64 },
}

/// What the settling of a post came to.
#[derive(Clone, Copy, Debug, PartialEq, Eq)]
pub enum Settled {
    /// An agent drew the grant and reported this number.
    Sent(u64),
    /// Nobody drew the grant, and nobody can any more.
    TakenBack,
    /// An agent drew the grant and has not reported: the word that shows it. The post stays unsettled.
    Busy(u64),
}

impl Settled {
    // Whether the post stays unsettled.
    pub(crate) fn is_busy(&self) -> bool
        ensures { result ≡ is_busy self.now }
    {
        matches!(self, Settled::Busy(_))
    }

    // The number by which the post is settled, and 0 where there is none.
    pub(crate) fn number_sent(&self) -> u64
        ensures { result ≡ number_sent self.now }
    {
        match *self {
            Settled::Sent(n) => n,
            Settled::TakenBack | Settled::Busy(_) => 0,
        }
    }
}

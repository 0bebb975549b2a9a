//! What a seat at the port words knows. No value of these types is made.
use atomic_table::TableRule;
use observed_table::{Looking, ObservedSeat};
use std::collections::LinkedList;

/// A post: the flow that may be sent at the port from the slot on, for so many units.
pub struct Grant {
    pub port: u64,
    pub slot: u64,
    pub flow: u64,
    pub length: u64,
}

/// A drawn grant and the number that was reported for it.
pub struct Report {
    pub grant: Grant,
    pub sent: u64,
}

/// A post and how it was settled: by a reported number, or taken back.
pub struct Settlement {
    pub grant: Grant,
    pub sent: Option<u64>,
}

/// What the seat is about to do.
pub enum Step {
    /// Nothing: it may begin any call.
    Rests,
    /// The port and the granted word that an agent loaded there.
    Loaded(u64, u64),
    /// The port of the grant that an agent drew and the number that it will find in the count word.
    Won(u64, u64),
    /// The place of a count word and the number that was written there.
    Counted(u64, u64),
    /// The port and the granted word that the poster loaded there.
    Offered(u64, u64),
    /// The port whose word the poster found reported.
    Ready(u64),
}

/// Whose view it is.
pub enum Kind {
    Note,
    Agent(u64),
    Poster,
}

/// The lists of an agent's seat that came back.
pub struct Came {
    pub number: u64,
    pub done: LinkedList<Report>,
    pub missed: LinkedList<(u64, u64)>,
}

/// What a seat knows: whose it is, its lists, and what it has looked at.
pub struct View {
    pub kind: Kind,
    /// How many agents the poster has made.
    pub made: u64,
    /// The seats that came back to the poster.
    pub back: LinkedList<Came>,
    /// The poster's posts and how it settled them.
    pub posts: LinkedList<Grant>,
    pub settled: LinkedList<Settlement>,
    pub step: Step,
    /// The posts that an agent has seen.
    pub shown: LinkedList<Grant>,
    /// The grants that it drew and has not reported.
    pub out: LinkedList<Grant>,
    /// The grants that it drew and reported.
    pub done: LinkedList<Report>,
    /// The grants that it missed, by port and slot.
    pub missed: LinkedList<(u64, u64)>,
    /// The words that it loaded or found, each with its place.
    pub looks: LinkedList<(u64, u64)>,
}

impl Looking for View {
    ghost looks = { λ v. v.looks };
}

/// The rule of the port words, for a number of ports.
pub struct Ports;

impl TableRule<(), View, u64> for Ports {
    ghost use Rattle.port_board.specs.Rule.{Kept, first_poster};

    ghost holds = { Kept };

    ghost first = { λ _. first_poster };
}

/// A seat at the table of the words. It knows a view.
pub type Place = ObservedSeat<(), View>;

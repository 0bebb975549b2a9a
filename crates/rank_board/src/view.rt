//! What a seat at the board's words knows. No value of these types is made.
use atomic_table::TableRule;
use observed_table::{Looking, ObservedSeat};
use std::collections::LinkedList;

/// What a seat knows.
pub struct View {
    /// Whether it may publish.
    pub publishes: bool,
    /// The ranks of each version that was published, and those of the next one that are written so far.
    pub published: LinkedList<LinkedList<u64>>,
    pub next: LinkedList<u64>,
    /// The greatest version that it has seen.
    pub seen: u64,
    /// The words that it loaded, each with its place.
    pub looks: LinkedList<(u64, u64)>,
}

impl Looking for View {
    ghost looks = { λ v. v.looks };
}

/// The rule of the board's words, for a number of coflows.
pub struct Banks;

impl TableRule<(), View, u64> for Banks {
    ghost use Rattle.rank_board.specs.Banks.{Kept, publisher_view};

    ghost holds = { Kept };

    ghost first = { λ _. publisher_view };
}

/// A seat at the table of the words. It knows a view.
pub type Place = ObservedSeat<(), View>;

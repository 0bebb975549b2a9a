//! What a place at the turnstile's table knows, and the rule of that table. Views stand in proofs alone: no value of
//! these types is made.
use crate::chronicle::Chronicle;
use atomic_table::TableRule;
use std::collections::LinkedList;
use std::snapshot::Snapshot;

pub enum Stage {
    Idle,
    /// The ticket that it waits with.
    Waiting(u64),
    /// The ticket that is served.
    InTurn(u64),
}

pub enum Role {
    /// It carries what a seat has seen, within one call.
    Note,
    /// The seat of the caller with this number.
    Seat(u64),
    Root,
}

/// A seat that came back: its number, and the entries that it had seen.
pub struct Returned<E> {
    pub number: u64,
    pub seen: LinkedList<E>,
}

pub struct View<E, C> {
    pub role: Role,
    pub stage: Stage,
    pub seen: LinkedList<E>,
    /// What it was told that another has seen.
    pub told: LinkedList<E>,
    /// How many seats the root has made, and those that came back.
    pub made: u64,
    pub back: LinkedList<Returned<E>>,
    pub setting: Option<C>,
    /// The setting of the place that told it.
    pub told_setting: Option<C>,
}

pub struct Tickets;

impl<T: Chronicle> TableRule<Option<T>, View<T::Entry, T::Setting>, Snapshot<T>> for Tickets {
    ghost use Rattle.turnstile.specs.Tickets.{Kept, root_of};

    ghost holds = { λ key. Kept T.by T.entries T.setting (T.setting key.value) };

    ghost first = { λ key. root_of (T.setting key.value) };
}

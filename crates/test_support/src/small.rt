//! Small halls.
ghost use Rattle.std.specs.Prelude.{◌≡◌, ◌≤◌, ◌^◌, All, IfSome, length};
ghost use Rattle.client_session.specs.Models.{IsDriverOf, IsSessionOf};
ghost use Rattle.test_support.specs.Closed.{IsJournalOf};
ghost use Rattle.test_support.specs.Begun.{HasTurns};

use crate::begun::{master_of_two, sessions_of};
use crate::closed::{closed, journal_of};
use client_session::{Driver, Hall, Session};
use master_core::Entry;
use std::alloc::Global;

/// How large a hall is.
#[derive(Clone, Copy, Debug)]
pub struct SmallSize {
    /// How many entries its journal takes.
    pub limit: u32,
    /// How many turns its driver may take.
    pub driver_calls: u32,
    /// How many sessions it has.
    pub sessions: u32,
    /// How many turns each session may take.
    pub calls: u32,
}

/// A hall of two coflows, its driver and its sessions.
#[derive(Drop)]
pub struct SmallHall {
    pub hall: Hall,
    pub driver: Driver,
    pub sessions: Vec<Session>,
}

impl SmallHall {
    /// A new hall of this size, whose coflows are those of `master_of_two`. The sessions have the numbers from 1 on.
    ///
    /// None means that memory was wanting.
    pub fn of_two(alloc: Global, size: SmallSize) -> Option<SmallHall>
        requires some { 1 ≤ size.limit }
        requires few { size.limit ≤ 2 ^ 23 }
        requires few_sessions { size.sessions ≤ 2 ^ 16 }
        ensures driver { IfSome result (λ it. IsDriverOf it.hall it.driver) }
        ensures made { IfSome result (λ it. it.driver.made ≡ size.sessions) }
        ensures left { IfSome result (λ it. it.driver.left ≡ size.driver_calls) }
        ensures sessions { IfSome result (λ it. All (IsSessionOf it.hall) it.sessions.items) }
        ensures turns { IfSome result (λ it. All (HasTurns size.calls) it.sessions.items) }
        ensures count { IfSome result (λ it. length it.sessions.items ≡ size.sessions) }
        ensures coflows { IfSome result (λ it. length it.hall.setting.opening.table.ids ≡ 2) }
        ensures ports { IfSome result (λ it. 2 ≤ it.hall.setting.opening.table.ports) }
    {
        let Some(master) = master_of_two(alloc, size.limit) else {
            return None;
        };
        let calls = u64::from(size.driver_calls);
        let Ok((hall, mut driver)) = Hall::begin(alloc, master, calls) else {
            return None;
        };
        match sessions_of(alloc, &hall, &mut driver, size.sessions, size.calls) {
            Some(sessions) => Some(SmallHall {
                hall,
                driver,
                sessions,
            }),
            None => {
                drop(hall);
                drop(driver);
                None
            }
        }
    }

    /// Closes the hall, and answers a copy of its journal. A close that finds no memory is tried once more.
    ///
    /// None means that memory was wanting, or that a session was.
    pub fn journal(self, alloc: Global) -> Option<Vec<Entry>>
        requires driver { IsDriverOf self.hall self.driver }
        requires sessions { All (IsSessionOf self.hall) self.sessions.items }
        ensures journal { IfSome result (λ it. IsJournalOf self.hall self.driver self.sessions.items it.items) }
    {
        let SmallHall {
            hall,
            driver,
            sessions,
        } = self;
        let Some(master) = closed(alloc, hall, driver, sessions) else {
            return None;
        };
        let journal = journal_of(alloc, &master);
        drop(master);
        journal
    }

    /// Lets the hall go, with its driver and its sessions.
    pub fn let_go(self) {
        drop(self);
    }
}

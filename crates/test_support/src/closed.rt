//! How a small hall is closed.
ghost use Rattle.std.specs.Prelude.{◌≡◌, All, IfSome};
ghost use Rattle.client_session.specs.Closes.{IsClosed};
ghost use Rattle.client_session.specs.Models.{IsDriverOf, IsSessionOf};

use client_session::{CloseFault, Driver, Hall, Session};
use master_core::{Entry, Master};
use std::alloc::Global;

/// Closes a hall of which all sessions are given, and hands out its master. A close that finds no memory is tried once
/// more. None means that memory was wanting, or that a session was.
pub(crate) fn closed(
    alloc: Global,
    hall: Hall,
    driver: Driver,
    sessions: Vec<Session>,
) -> Option<Master>
    requires driver { IsDriverOf hall driver }
    requires sessions { All (IsSessionOf hall) sessions.items }
    ensures closed { IfSome result (IsClosed hall driver sessions.items) }
{
    match hall.close(alloc, driver, sessions) {
        Ok(master) => Some(master),
        Err(CloseFault::NoMemory(closing)) => match closing.again(alloc) {
            Ok(master) => Some(master),
            Err(closing) => {
                drop(closing);
                None
            }
        },
        Err(missing) => {
            drop(missing);
            None
        }
    }
}

/// A copy of a master's journal. None means that memory was wanting.
pub(crate) fn journal_of(alloc: Global, master: &Master) -> Option<Vec<Entry>>
    ensures journal { IfSome result (λ journal. journal.items ≡ master.now.journal) }
{
    match Vec::from_slice(alloc, master.journal()) {
        Ok(journal) => Some(journal),
        Err(_) => None,
    }
}

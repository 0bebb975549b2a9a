//! Halls with two clients. A test that finds no memory stops at once.
ghost use Rattle.std.specs.Prelude.{◌≡◌, ◌≤◌, All, length};
ghost use Rattle.client_session.specs.Models.{IsDriverOf, IsSessionOf};

use std::alloc::Global;
use std::process::Abort;
use test_support::{SmallHall, SmallSize};

/// A hall of a journal with room for so many entries, and two clients, which may take so many turns each.
pub(crate) fn small_of(rt: &impl Abort, alloc: Global, limit: u32, calls: u32) -> SmallHall
    requires limit { (1 ≤ limit) × (limit ≤ 100) }
    ensures coflows { length result.hall.setting.opening.table.ids ≡ 2 }
    ensures driver { IsDriverOf result.hall result.driver }
    ensures own { All (IsSessionOf result.hall) result.sessions.items }
    ensures two { length result.sessions.items ≡ 2 }
{
    let size = SmallSize {
        limit,
        driver_calls: 0,
        sessions: 2,
        calls,
    };
    let Some(small) = SmallHall::of_two(alloc, size) else {
        panic!(rt; "no memory");
    };
    small
}

/// Closes the hall, and adds the entries of its journal to the text.
pub(crate) fn tell_journal(rt: &impl Abort, alloc: Global, small: SmallHall, text: &mut String)
    requires driver { IsDriverOf small.hall small.driver }
    requires sessions { All (IsSessionOf small.hall) small.sessions.items }
{
    let Some(journal) = small.journal(alloc) else {
        panic!(rt; "no memory");
    };
    for entry in journal.as_slice() {
        let Ok(()) = writeln!(text, "{} {:?} {:?}", entry.who, entry.command, entry.reply) else {
            panic!(rt; "no memory");
        };
    }
    drop(journal);
}

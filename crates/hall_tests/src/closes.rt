//! Halls from which a session is missing.
ghost use Rattle.std.specs.Prelude.{◌≡◌, All, length};
ghost use Rattle.client_session.specs.Models.{IsDriverOf, IsSessionOf};

use client_session::{Answer, CloseFault, Hall, Receipt, Session};
use master_core::Reply;
use std::alloc::Global;
use std::process::Abort;
use std::sync::Wait;
use std::test::*;
use test_support::{SmallHall, SmallSize, let_session_go};

/// A hall that has made two sessions of one turn each: with it stands the first one, and behind it the last one.
fn hall_of_two(rt: &impl Abort, alloc: Global) -> (SmallHall, Session)
    ensures driver { IsDriverOf result.0.hall result.0.driver }
    ensures sessions { All (IsSessionOf result.0.hall) result.0.sessions.items }
    ensures last { IsSessionOf result.0.hall result.1 }
    ensures coflows { length result.0.hall.setting.opening.table.ids ≡ 2 }
{
    let size = SmallSize {
        limit: 100,
        driver_calls: 20,
        sessions: 1,
        calls: 1,
    };
    let Some(mut small) = SmallHall::of_two(alloc, size) else {
        panic!(rt; "no memory");
    };
    let Ok(last) = small.hall.session(alloc, &mut small.driver, 1) else {
        panic!(rt; "no memory");
    };
    (small, last)
}

/// Stops where not one of two sessions is given.
fn is_one_of_two(rt: &impl Abort, made: u32, given: u32) {
    assert!(rt; made == 2 && given == 1);
}

/// A close of a hall of two sessions, of which one is given. All is handed back.
fn refused(rt: &impl Abort, alloc: Global, small: SmallHall) -> SmallHall
    requires driver { IsDriverOf small.hall small.driver }
    requires sessions { All (IsSessionOf small.hall) small.sessions.items }
    ensures hall { result.hall ≡ small.hall }
    ensures driver { result.driver ≡ small.driver }
    ensures sessions { result.sessions.items ≡ small.sessions.items }
{
    let SmallHall {
        hall,
        driver,
        sessions,
    } = small;
    match hall.close(alloc, driver, sessions) {
        Err(
            CloseFault::Missing {
                made,
                given,
                hall,
                driver,
                sessions,
            },
        ) => {
            is_one_of_two(rt, made, given);
            SmallHall {
                hall,
                driver,
                sessions,
            }
        }
        Err(CloseFault::NoMemory(_)) => panic!(rt; "no memory"),
        Ok(_) => panic!(rt; "no session is missing"),
    }
}

#[test]
fn a_hall_stays_open_where_a_session_was_dropped(rt: HostRuntime) {
    let alloc = rt.alloc();
    let (small, last) = hall_of_two(&rt, alloc);
    let_session_go(last);
    let small = refused(&rt, alloc, small);
    refused(&rt, alloc, small).let_go();
}

/// The session takes its one turn. A second one is none.
fn takes_its_turn<R: Wait + Abort>(rt: &R, hall: &Hall, session: &mut Session)
    requires own { IsSessionOf hall.now session.old }
    requires coflows { length hall.now.setting.opening.table.ids ≡ 2 }
    ensures own { IsSessionOf hall.entry.now session.new }
{
    let joined = Answer::Done(Receipt {
        position: 1,
        version: 0,
        reply: Reply::Joined,
    });
    assert!(rt; session.register(rt, hall, 0) == joined);
    assert!(rt; session.register(rt, hall, 1) == Answer::Spent);
}

/// Gives a session back.
fn give(rt: &impl Abort, _hall: &Hall, sessions: &mut Vec<Session>, last: Session)
    requires sessions { All (IsSessionOf _hall.now) sessions.old.items }
    requires last { IsSessionOf _hall.now last }
    ensures sessions { All (IsSessionOf _hall.entry.now) sessions.new.items }
{
    let Ok(()) = sessions.reserve(1) else {
        panic!(rt; "no memory");
    };
    sessions.push_reserved(last);
}

/// Closes a hall: how many entries its journal has.
fn entries_of(rt: &impl Abort, alloc: Global, small: SmallHall) -> usize
    requires driver { IsDriverOf small.hall small.driver }
    requires sessions { All (IsSessionOf small.hall) small.sessions.items }
{
    let Some(journal) = small.journal(alloc) else {
        panic!(rt; "no memory");
    };
    let entries = journal.len();
    drop(journal);
    entries
}

/// Closes a hall of two sessions, of which the last one takes its turn, and is kept back at first: how many entries the
/// journal has.
fn closed_later<R: Wait + Abort>(rt: &R, alloc: Global, small: SmallHall, last: Session) -> usize
    requires driver { IsDriverOf small.hall small.driver }
    requires sessions { All (IsSessionOf small.hall) small.sessions.items }
    requires last { IsSessionOf small.hall last }
    requires coflows { length small.hall.setting.opening.table.ids ≡ 2 }
{
    let mut last = last;
    takes_its_turn(rt, &small.hall, &mut last);
    let mut open = refused(rt, alloc, small);
    give(rt, &open.hall, &mut open.sessions, last);
    entries_of(rt, alloc, open)
}

#[test]
fn a_hall_closes_once_all_sessions_are_given(rt: HostRuntime) {
    let (small, last) = hall_of_two(&rt, rt.alloc());
    let entries = closed_later(&rt, rt.alloc(), small, last);
    assert!(rt; entries == 1);
}

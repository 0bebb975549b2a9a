//! Calls of a hall in a known order, and what they answer.
ghost use Rattle.std.specs.Prelude.{◌≡◌, ◌≤◌, ◌^◌, All, length};
ghost use Rattle.client_session.specs.Models.{IsDriverOf, IsSessionOf};

use crate::calls::{Call, told};
use crate::orders::Order;
use client_session::{Driver, Hall, Session};
use std::alloc::Global;
use std::process::Abort;
use std::sync::Wait;
use std::test::*;
use test_support::{Ask, SmallHall, SmallSize};

/// A call, and what is told then.
type Case<'a> = (Call, &'a str);

/// Makes the calls of the rows.
fn play_rows<R: Wait + Abort>(
    rt: &R,
    alloc: Global,
    hall: &Hall,
    driver: &mut Driver,
    sessions: &mut [Session],
    rows: &[Case<'_>],
)
    requires driver { IsDriverOf hall.now driver.old }
    requires sessions { All (IsSessionOf hall.now) sessions.old }
    requires coflows { length hall.now.setting.opening.table.ids ≡ 2 }
    requires ports { 2 ≤ hall.now.setting.opening.table.ports }
    ensures driver { IsDriverOf hall.entry.now driver.new }
    ensures sessions { All (IsSessionOf hall.entry.now) sessions.new }
{
    let Ok(mut places) = Vec::with_capacity(alloc, 2) else {
        panic!(rt; "no memory");
    };
    for row in rows {
        let have = told(rt, alloc, hall, driver, sessions, &mut places, row.0);
        is_told(rt, &have, row.1);
        drop(have);
    }
    drop(places);
}

/// Stops where another answer is told.
fn is_told(rt: &impl Abort, have: &str, want: &str) {
    if have != want {
        panic!(rt; "{have} is told in place of {want}");
    }
}

/// Makes the calls of the rows in a new hall of two sessions.
fn play<R: Wait + Abort>(rt: &R, alloc: Global, limit: u32, calls: u32, rows: &[Case<'_>])
    requires some { 1 ≤ limit }
    requires few { limit ≤ 2 ^ 23 }
{
    let size = SmallSize {
        limit,
        driver_calls: 20,
        sessions: 2,
        calls,
    };
    let Some(mut small) = SmallHall::of_two(alloc, size) else {
        panic!(rt; "no memory");
    };
    play_rows(
        rt,
        alloc,
        &small.hall,
        &mut small.driver,
        &mut small.sessions,
        rows,
    );
    small.let_go();
}

#[test]
fn a_session_makes_no_more_calls_than_it_has(rt: HostRuntime) {
    const ROWS: &[Case<'static>] = &[
        (
            Call::Client(0, Ask::Register(0)),
            "Done(Receipt { position: 1, version: 0, reply: Joined }), 1 0 0",
        ),
        (Call::Client(0, Ask::Register(1)), "Spent, 1 0 0"),
        (Call::Client(0, Ask::Publish), "Spent, 1 0 0"),
        (
            Call::Client(0, Ask::Pull(1)),
            "Unranked { version: 0 }, 1 0 0",
        ),
    ];
    play(&rt, rt.alloc(), 100, 1, ROWS);
}

// The journal has room for one entry. A call that finds it full shows its length and is used up, and one more call is none.
#[test]
fn a_full_journal_uses_a_call_up(rt: HostRuntime) {
    const ROWS: &[Case<'static>] = &[
        (
            Call::Client(0, Ask::Register(0)),
            "Done(Receipt { position: 1, version: 0, reply: Joined }), 1 0 1",
        ),
        (Call::Client(0, Ask::Register(1)), "Full(1), 1 0 0"),
        (Call::Client(0, Ask::Register(1)), "Spent, 1 0 0"),
        (Call::Client(1, Ask::Register(1)), "Full(1), 1 0 1"),
    ];
    play(&rt, rt.alloc(), 1, 2, ROWS);
}

#[test]
fn pulls_read_the_newest_ranks(rt: HostRuntime) {
    const ROWS: &[Case<'static>] = &[
        (
            Call::Client(0, Ask::Register(0)),
            "Done(Receipt { position: 1, version: 0, reply: Joined }), 1 0 8",
        ),
        (
            Call::Client(0, Ask::Register(1)),
            "Done(Receipt { position: 2, version: 0, reply: Joined }), 2 0 7",
        ),
        (
            Call::Client(0, Ask::Publish),
            "Done(Receipt { position: 3, version: 1, reply: Version(1) }), 3 1 6",
        ),
        (
            Call::Client(1, Ask::Pull(1)),
            "Rank { version: 1, rank: 1 }, 0 1 9",
        ),
        (
            Call::Client(1, Ask::Pull(0)),
            "Rank { version: 1, rank: 2 }, 0 1 9",
        ),
        (Call::Seen(0), ", 3 1 6"),
        (
            Call::Client(0, Ask::Withdraw(1)),
            "Done(Receipt { position: 4, version: 1, reply: Left }), 4 1 5",
        ),
        (
            Call::Client(0, Ask::Publish),
            "Done(Receipt { position: 5, version: 2, reply: Version(2) }), 5 2 4",
        ),
        (
            Call::Client(1, Ask::Pull(1)),
            "Unranked { version: 2 }, 0 2 9",
        ),
        (
            Call::Client(1, Ask::Pull(0)),
            "Rank { version: 2, rank: 1 }, 0 2 9",
        ),
        (
            Call::Client(1, Ask::PullTurn(0)),
            "Done(Receipt { position: 6, version: 2, reply: Rank(2, 1) }), 6 2 8",
        ),
    ];
    play(&rt, rt.alloc(), 100, 9, ROWS);
}

#[test]
fn a_weight_counts_from_the_next_version_on(rt: HostRuntime) {
    const ROWS: &[Case<'static>] = &[
        (
            Call::Client(0, Ask::Register(0)),
            "Done(Receipt { position: 1, version: 0, reply: Joined }), 1 0 8",
        ),
        (
            Call::Client(0, Ask::Register(1)),
            "Done(Receipt { position: 2, version: 0, reply: Joined }), 2 0 7",
        ),
        (
            Call::Client(0, Ask::Publish),
            "Done(Receipt { position: 3, version: 1, reply: Version(1) }), 3 1 6",
        ),
        (
            Call::Client(1, Ask::Reweigh(0, 5)),
            "Done(Receipt { position: 4, version: 1, reply: Weighed(1) }), 4 1 8",
        ),
        (
            Call::Client(1, Ask::PullTurn(0)),
            "Done(Receipt { position: 5, version: 1, reply: Rank(1, 2) }), 5 1 7",
        ),
        (
            Call::Client(1, Ask::Pull(0)),
            "Rank { version: 1, rank: 2 }, 5 1 7",
        ),
        (
            Call::Client(0, Ask::Publish),
            "Done(Receipt { position: 6, version: 2, reply: Version(2) }), 6 2 5",
        ),
        (
            Call::Client(1, Ask::PullTurn(0)),
            "Done(Receipt { position: 7, version: 2, reply: Rank(2, 1) }), 7 2 6",
        ),
        (
            Call::Client(1, Ask::Pull(0)),
            "Rank { version: 2, rank: 1 }, 7 2 6",
        ),
        (
            Call::Client(0, Ask::Withdraw(1)),
            "Done(Receipt { position: 8, version: 2, reply: Left }), 8 2 4",
        ),
        (
            Call::Client(1, Ask::Reweigh(1, 2)),
            "Done(Receipt { position: 9, version: 2, reply: NotHere }), 9 2 5",
        ),
    ];
    play(&rt, rt.alloc(), 100, 9, ROWS);
}

#[test]
fn a_driver_runs_while_sessions_ask(rt: HostRuntime) {
    const ROWS: &[Case<'static>] = &[
        (
            Call::Client(0, Ask::Register(0)),
            "Done(Receipt { position: 1, version: 0, reply: Joined }), 1 0 8",
        ),
        (
            Call::Driver(Order::Register(1)),
            "Done(Receipt { position: 2, version: 0, reply: Joined }), 19",
        ),
        (
            Call::Driver(Order::Close),
            "Done(Receipt { position: 3, version: 0, reply: NoneOpen }), 18",
        ),
        (
            Call::Driver(Order::Publish),
            "Done(Receipt { position: 4, version: 1, reply: Version(1) }), 17",
        ),
        (Call::Granted(0), "None"),
        (
            Call::Driver(Order::Open(5)),
            "Done(Receipt { position: 5, version: 1, reply: Opened(1, 1, 1) }), 16",
        ),
        (Call::Granted(0), "Some(1)"),
        (Call::Granted(1), "None"),
        (
            Call::Driver(Order::Skip(9)),
            "Done(Receipt { position: 6, version: 1, reply: StillOpen(1) }), 15",
        ),
        (
            Call::Client(1, Ask::Withdraw(1)),
            "Done(Receipt { position: 7, version: 1, reply: Left }), 7 1 8",
        ),
        (
            Call::Driver(Order::Short(0, 0)),
            "Done(Receipt { position: 8, version: 1, reply: Noted(0) }), 14",
        ),
        (
            Call::Driver(Order::Close),
            "Done(Receipt { position: 9, version: 1, reply: Closed(1) }), 13",
        ),
        (Call::Granted(0), "None"),
        (
            Call::Driver(Order::Withdraw(0)),
            "Done(Receipt { position: 10, version: 1, reply: Left }), 12",
        ),
        (
            Call::Driver(Order::Skip(9)),
            "Done(Receipt { position: 11, version: 1, reply: Skipped(9) }), 11",
        ),
        (
            Call::Driver(Order::Open(9)),
            "Done(Receipt { position: 12, version: 1, reply: NothingLeft }), 10",
        ),
        (Call::Seen(0), ", 1 0 8"),
        (Call::Seen(1), ", 7 1 8"),
        (Call::Level, ""),
        (Call::Seen(0), ", 12 1 8"),
        (Call::Seen(1), ", 12 1 8"),
    ];
    play(&rt, rt.alloc(), 100, 9, ROWS);
}

#[test]
fn a_full_journal_takes_what_ends_a_run(rt: HostRuntime) {
    const ROWS: &[Case<'static>] = &[
        (
            Call::Driver(Order::Register(0)),
            "Done(Receipt { position: 1, version: 0, reply: Joined }), 19",
        ),
        (
            Call::Driver(Order::Open(2)),
            "Done(Receipt { position: 2, version: 0, reply: Opened(1, 2, 1) }), 18",
        ),
        (
            Call::Client(0, Ask::Register(1)),
            "Done(Receipt { position: 3, version: 0, reply: Joined }), 3 0 8",
        ),
        (Call::Client(1, Ask::Register(1)), "Full(3), 3 0 8"),
        (Call::Driver(Order::Register(1)), "Full(3), 17"),
        (
            Call::Driver(Order::Short(0, 1)),
            "Done(Receipt { position: 4, version: 0, reply: Noted(1) }), 16",
        ),
        (
            Call::Driver(Order::Close),
            "Done(Receipt { position: 5, version: 0, reply: Closed(1) }), 15",
        ),
        (
            Call::Client(1, Ask::Pull(1)),
            "Unranked { version: 0 }, 3 0 8",
        ),
        (Call::Level, ""),
        (Call::Seen(0), ", 5 0 8"),
    ];
    play(&rt, rt.alloc(), 3, 9, ROWS);
}

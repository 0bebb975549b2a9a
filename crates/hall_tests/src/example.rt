//! The example of `docs/HALL.md`.
ghost use Rattle.std.specs.Prelude.{◌≡◌, All, length};
ghost use Rattle.client_session.specs.Models.{IsDriverOf, IsSessionOf};

use client_session::{Answer, Driver, Hall, Receipt, Session};
use master_core::Reply;
use rank_board::Pulled;
use std::alloc::Global;
use std::process::Abort;
use std::sync::Wait;
use std::test::*;
use test_support::{SmallHall, SmallSize};

/// The answer to a turn whose entry has this position, with the newest version after it.
fn done(position: u32, version: u32, reply: Reply) -> Answer {
    Answer::Done(Receipt {
        position,
        version,
        reply,
    })
}

/// Both coflows join. There is no version yet.
fn join<R: Wait + Abort>(rt: &R, hall: &Hall, one: &mut Session, two: &mut Session)
    requires one { IsSessionOf hall.now one.old }
    requires two { IsSessionOf hall.now two.old }
    requires coflows { length hall.now.setting.opening.table.ids ≡ 2 }
    ensures one { IsSessionOf hall.entry.now one.new }
    ensures two { IsSessionOf hall.entry.now two.new }
{
    assert!(rt; one.register(rt, hall, 0) == done(1, 0, Reply::Joined));
    assert!(rt; two.register(rt, hall, 1) == done(2, 0, Reply::Joined));
    assert!(rt; two.pull(hall, 1) == Pulled::Unranked { version: 0 });
}

/// The short coflow comes first in the first version.
fn rank<R: Wait + Abort>(rt: &R, hall: &Hall, one: &mut Session, two: &mut Session)
    requires one { IsSessionOf hall.now one.old }
    requires two { IsSessionOf hall.now two.old }
    requires coflows { length hall.now.setting.opening.table.ids ≡ 2 }
    ensures one { IsSessionOf hall.entry.now one.new }
    ensures two { IsSessionOf hall.entry.now two.new }
{
    assert!(rt; one.publish(rt, hall) == done(3, 1, Reply::Version(1)));
    assert!(rt;
        two.pull(hall, 1)
            == Pulled::Rank {
                version: 1,
                rank: 1
            }
    );
    assert!(rt; two.pull_turn(rt, hall, 0) == done(4, 1, Reply::Rank(1, 2)));
}

/// A run of at most five slots: the short coflow's flow is granted at port 0, and one slot ends it.
fn drive<R: Wait + Abort>(rt: &R, hall: &Hall, driver: &mut Driver)
    requires own { IsDriverOf hall.now driver.old }
    ensures own { IsDriverOf hall.entry.now driver.new }
{
    assert!(rt; driver.open_run(rt, hall, 5) == done(5, 1, Reply::Opened(1, 1, 1)));
    assert!(rt; driver.granted(0) == Some(1));
    assert!(rt; driver.close_run(rt, hall) == done(6, 1, Reply::Closed(1)));
}

/// Makes the calls of the page.
fn show<R: Wait + Abort>(rt: &R, hall: &Hall, driver: &mut Driver, sessions: &mut [Session])
    requires driver { IsDriverOf hall.now driver.old }
    requires sessions { All (IsSessionOf hall.now) sessions.old }
    requires coflows { length hall.now.setting.opening.table.ids ≡ 2 }
    ensures driver { IsDriverOf hall.entry.now driver.new }
    ensures sessions { All (IsSessionOf hall.entry.now) sessions.new }
{
    assert!(rt; sessions.len() == 2);
    let (near, far) = sessions.split_at_mut(1);
    join(rt, hall, &mut near[0], &mut far[0]);
    rank(rt, hall, &mut near[0], &mut far[0]);
    drive(rt, hall, driver);
}

/// Makes the calls of the page in a new hall of two sessions, and closes it: how many entries its journal has.
fn shown<R: Wait + Abort>(rt: &R, alloc: Global) -> usize {
    let size = SmallSize {
        limit: 100,
        driver_calls: 20,
        sessions: 2,
        calls: 3,
    };
    let Some(mut small) = SmallHall::of_two(alloc, size) else {
        panic!(rt; "no memory");
    };
    show(rt, &small.hall, &mut small.driver, &mut small.sessions);
    let Some(journal) = small.journal(alloc) else {
        panic!(rt; "no memory");
    };
    let entries = journal.len();
    drop(journal);
    entries
}

#[test]
fn the_example_of_the_page(rt: HostRuntime) {
    let entries = shown(&rt, rt.alloc());
    assert!(rt; entries == 6);
}

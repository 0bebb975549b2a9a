//! Sessions on threads of their own. What they were told stands in the closed journal.
ghost use Rattle.std.specs.Prelude.{◌≡◌, ◌≤◌, All, length};
ghost use Rattle.client_session.specs.Models.{IsSessionOf};

use crate::noted_calls::{Mode, TURNS, play};
use crate::told::{Told, tell, tell_entries};
use crate::versions::{Note, is_true, versions_of};
use client_session::{Hall, Session};
use master_core::Entry;
use std::alloc::Global;
use std::process::Abort;
use std::sync::{Mutex, Wait};
use std::test::*;
use std::thread;
use std::thread::Threads;
use test_support::{SmallHall, SmallSize};

/// How many entries a journal has at most.
const LIMIT: u32 = 4000;

/// What was noted by sessions, and whether there was memory for all of it.
#[derive(Drop)]
pub(crate) struct Log {
    notes: Vec<Note>,
    whole: bool,
}

/// Which calls sessions make, on how many threads, and where they note what they pull.
#[derive(Clone, Copy)]
pub(crate) struct Crowd<'a> {
    mode: Mode,
    pub(crate) threads: usize,
    log: &'a Mutex<Log>,
}

/// Makes the calls of a session, and adds its notes to the log.
fn play_one<R: Wait>(
    rt: &R,
    alloc: Global,
    hall: &Hall,
    session: &mut Session,
    mode: Mode,
    log: &Mutex<Log>,
)
    requires own { IsSessionOf hall.now session.old }
    requires coflows { length hall.now.setting.opening.table.ids ≡ 2 }
    ensures own { IsSessionOf hall.entry.now session.new }
{
    let mut notes = Vec::new(alloc);
    let whole = play(rt, hall, session, mode, &mut notes);
    let mut log = log.lock(rt);
    let added = log.notes.append(&mut notes).is_ok();
    log.whole = log.whole && whole && added;
}

/// Makes the calls of all sessions, on the threads of the crowd.
pub(crate) fn play_all<R: Threads + Wait + Sync + Abort>(
    rt: &R,
    alloc: Global,
    hall: &Hall,
    sessions: &mut [Session],
    crowd: Crowd<'_>,
)
    requires own { All (IsSessionOf hall.now) sessions.old }
    requires coflows { length hall.now.setting.opening.table.ids ≡ 2 }
    ensures own { All (IsSessionOf hall.entry.now) sessions.new }
{
    let Crowd { mode, threads, log } = crowd;
    assert!(rt; threads > 0);
    thread::for_each_mut(
        rt,
        sessions,
        threads,
        &|_, session| { play_one(rt, alloc, hall, session, mode, log) },
    );
}

/// All notes are true in a closed journal.
fn are_true(rt: &impl Abort, alloc: Global, journal: &[Entry], told: &[Told], log: &Log) {
    assert!(rt; log.whole, "no memory");
    let Ok(versions) = versions_of(alloc, journal, LIMIT) else {
        panic!(rt; "a master answers otherwise, or no memory");
    };
    for note in log.notes.as_slice() {
        assert!(rt; is_true(note, versions.as_slice(), told));
    }
    drop(versions);
}

/// Makes the calls of a crowd in a new hall, and closes it. The receipts are told, and the journal is answered.
fn played<R: Threads + Wait + Sync + Abort>(
    rt: &R,
    alloc: Global,
    count: u32,
    crowd: Crowd<'_>,
    told: &mut Vec<Told>,
) -> Vec<Entry>
    requires few { count ≤ 64 }
{
    let size = SmallSize {
        limit: LIMIT,
        driver_calls: 0,
        sessions: count,
        calls: TURNS,
    };
    let Some(mut small) = SmallHall::of_two(alloc, size) else {
        panic!(rt; "no memory");
    };
    play_all(rt, alloc, &small.hall, &mut small.sessions, crowd);
    let whole = tell(&small.sessions, told).is_ok();
    assert!(rt; whole, "no memory");
    let Some(journal) = small.journal(alloc) else {
        panic!(rt; "no memory");
    };
    journal
}

/// The receipts are those of the entries of so many sessions in the journal.
fn are_entries(rt: &impl Abort, alloc: Global, journal: &[Entry], count: u32, told: &[Told]) {
    let mut entries = Vec::new(alloc);
    let whole = tell_entries(journal, count, &mut entries).is_ok();
    assert!(rt; whole, "no memory");
    assert!(rt; told == entries.as_slice());
    drop(entries);
    assert!(rt; told.len() == journal.len());
}

/// Plays a crowd in a new hall. What was told and noted is compared with the closed journal.
fn compare<R: Threads + Wait + Sync + Abort>(
    rt: &R,
    alloc: Global,
    mode: Mode,
    count: u32,
    threads: usize,
)
    requires few { count ≤ 64 }
    requires some { 1 ≤ threads }
{
    let log = Mutex::new(Log {
        notes: Vec::new(alloc),
        whole: true,
    });
    let crowd = Crowd {
        mode,
        threads,
        log: &log,
    };
    let mut told = Vec::new(alloc);
    let journal = played(rt, alloc, count, crowd, &mut told);
    are_entries(rt, alloc, &journal, count, &told);
    let log = log.into_inner();
    are_true(rt, alloc, &journal, &told, &log);
    drop(log);
    drop(journal);
    drop(told);
}

#[test]
fn two_threads_have_two_sessions_each(rt: HostRuntime) {
    compare(&rt, rt.alloc(), Mode::Turns, 4, 2);
}

#[test]
fn four_threads_pull_what_another_publishes(rt: HostRuntime) {
    compare(&rt, rt.alloc(), Mode::Pulls, 5, 5);
}

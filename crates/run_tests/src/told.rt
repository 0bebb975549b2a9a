//! What runs come to, as a text.
ghost use Rattle.std.specs.Prelude.{◌≡◌, ◌≤◌};
ghost use Rattle.client_session.specs.Models.{IsSessionOf};
ghost use Rattle.slot_runner.specs.Models.{MayRun};

use client_session::Hall;
use master_core::Entry;
use outside::MemWire;
use slot_runner::{Ran, Runner};
use std::alloc::Global;
use std::process::Abort;
use std::sync::Wait;
use std::thread::Threads;
use test_support::SmallRun;

/// Makes one run, and tells what it came to, the flows of the runner's last run, and how many calls the driver has
/// left.
pub(crate) fn tell_run<R: Threads + Wait + Sync + Abort>(
    rt: &R,
    alloc: Global,
    hall: &Hall,
    runner: &mut Runner,
    most: u64,
    agents: u32,
    wires: &mut [MemWire; 2],
    text: &mut String,
)
    requires may { MayRun hall.now runner.old }
    requires ports { hall.now.setting.opening.table.ports ≡ 2 }
    requires some { (1 ≤ most) × (1 ≤ agents) }
    ensures may { MayRun hall.entry.now runner.new }
{
    let ran = runner.slot(alloc, rt, hall, most, agents, wires);
    let left = runner.driver().calls_left();
    tell_ran(rt, ran, runner.granted(), left, text);
}

/// Tells what a run came to, its flows, and how many calls are left.
fn tell_ran(rt: &impl Abort, ran: Ran, flows: &[u32], left: u64, text: &mut String) {
    let Ok(()) = write!(text, "{ran:?} {flows:?} {left}\n") else {
        panic!(rt; "no memory");
    };
}

/// Tells an entry.
fn tell_entry<R: Abort>(rt: &R, entry: &Entry, text: &mut String) {
    let Ok(()) = write!(text, "{:?} {:?}\n", entry.command, entry.reply) else {
        panic!(rt; "no memory");
    };
}

/// Tells the driver's entries among these.
fn tell_entries<R: Abort>(rt: &R, entries: &[Entry], text: &mut String) {
    for entry in entries {
        if entry.who == 0 {
            tell_entry(rt, entry, text);
        }
    }
}

/// Tells the runs that a wire accepted.
pub(crate) fn tell_wire<R: Abort>(rt: &R, port: u32, wire: &MemWire, text: &mut String) {
    for index in 0..wire.len() {
        let Ok(()) = write!(text, "{port}: {:?}\n", wire.run(index)) else {
            panic!(rt; "no memory");
        };
    }
}

/// Tells the driver's entries, once the hall is closed.
pub(crate) fn tell_journal<R: Abort>(rt: &R, alloc: Global, small: SmallRun, text: &mut String)
    requires may { MayRun small.hall small.runner }
    requires session { IsSessionOf small.hall small.session }
{
    let Some(journal) = small.journal(alloc) else {
        panic!(rt; "no memory");
    };
    tell_entries(rt, &journal, text);
    drop(journal);
}

/// Stops where another text is told.
pub(crate) fn is_told<R: Abort>(rt: &R, text: &str, want: &str) {
    if text != want {
        panic!(rt; "{text} is told in place of {want}");
    }
}

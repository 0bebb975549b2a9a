//! Turns at one value on threads of their own.
ghost use Rattle.std.specs.Prelude.{◌≡◌, ℕ, List, [], false};

use std::alloc::Global;
use std::sync::Wait;
use std::test::*;
use std::thread::{Threads, join_mut};
use turnstile::{Chronicle, Root, TurnSeat, Turnstile};

// How many turns each thread takes.
const TURNS: u32 = 20_000;

/// An entry of the tests' list: who made it, and its number among those of its caller.
#[derive(Copy, Clone, Debug, PartialEq, Eq)]
pub struct Line {
    pub who: u32,
    pub number: u32,
}

#[derive(Drop)]
pub struct Log {
    pub lines: Vec<Line>,
}

impl Chronicle for Log {
    ghost use Rattle.hall_tests.specs.declared.turns.Line.{Line};

    type Entry = Line;

    type Setting = ();

    ghost by = { λ (e : Line). e.who };

    ghost entries = { λ s. s.lines.items };

    ghost setting = { λ _. tt };
}

// A turn that adds one line.
fn add<R: Wait>(rt: &R, gate: &Turnstile<Log>, seat: &mut TurnSeat<Log>, line: Line)
    requires own { seat.old.table ≡ gate.now.table }
    requires free { seat.old.in_turn ≡ false }
    requires number { line.who ≡ seat.old.number }
    ensures seat { (seat.new.table ≡ gate.entry.now.table) × (seat.new.in_turn ≡ false) ×
        (seat.new.number ≡ seat.old.number) }
{
    let mut turn = gate.enter(rt, seat);
    let _ = turn.value.lines.push(line);
    gate.leave(seat, turn);
}

// The same for the root.
fn add_root<R: Wait>(rt: &R, gate: &Turnstile<Log>, root: &mut Root<Log>, line: Line)
    requires own { root.old.table ≡ gate.now.table }
    requires free { root.old.in_turn ≡ false }
    requires number { line.who ≡ 0 }
    ensures root { (root.new.table ≡ gate.entry.now.table) × (root.new.in_turn ≡ false) }
    ensures seats { (root.new.made ≡ root.old.made) × (root.new.back ≡ root.old.back) }
{
    let mut turn = gate.enter_root(rt, root);
    let _ = turn.value.lines.push(line);
    gate.leave_root(root, turn);
}

fn add_many<R: Wait>(rt: &R, gate: &Turnstile<Log>, seat: &mut TurnSeat<Log>, who: u32, count: u32)
    requires own { seat.old.table ≡ gate.now.table }
    requires free { seat.old.in_turn ≡ false }
    requires number { who ≡ seat.old.number }
    ensures seat { (seat.new.table ≡ gate.entry.now.table) × (seat.new.in_turn ≡ false) ×
        (seat.new.number ≡ seat.old.number) }
{
    for number in 0..count {
        add(rt, gate, seat, Line { who, number });
    }
}

fn add_many_root<R: Wait>(rt: &R, gate: &Turnstile<Log>, root: &mut Root<Log>, count: u32)
    requires own { root.old.table ≡ gate.now.table }
    requires free { root.old.in_turn ≡ false }
    ensures root { (root.new.table ≡ gate.entry.now.table) × (root.new.in_turn ≡ false) }
    ensures seats { (root.new.made ≡ root.old.made) × (root.new.back ≡ root.old.back) }
{
    for number in 0..count {
        add_root(rt, gate, root, Line { who: 0, number });
    }
}

// How many lines a caller has, if they stand in the order in which it made them.
fn lines_in_order(log: &Log, who: u32) -> Option<u32> {
    let mut next = 0u32;
    for line in log.lines.as_slice() {
        if line.who == who {
            if line.number != next {
                return None;
            }
            next = next.checked_add(1)?;
        }
    }
    Some(next)
}

// Two seats take turns, each on a thread.
fn add_both<R: Threads + Wait + Sync>(
    rt: &R,
    gate: &Turnstile<Log>,
    one: &mut TurnSeat<Log>,
    two: &mut TurnSeat<Log>,
)
    requires own { (one.old.table ≡ gate.now.table) × (two.old.table ≡ gate.now.table) }
    requires free { (one.old.in_turn ≡ false) × (two.old.in_turn ≡ false) }
    requires numbers { (one.old.number ≡ 1) × (two.old.number ≡ 2) }
    ensures one { (one.new.table ≡ gate.entry.now.table) × (one.new.in_turn ≡ false) × (one.new.number ≡ 1) }
    ensures two { (two.new.table ≡ gate.entry.now.table) × (two.new.in_turn ≡ false) × (two.new.number ≡ 2) }
{
    join_mut(
        rt,
        &mut || add_many(rt, gate, one, 1, TURNS),
        &mut || add_many(rt, gate, two, 2, TURNS),
    );
}

// An empty log.
fn empty(rt: &impl Alloc<A = Global>) -> Log
    ensures { result.lines.items ≡ [] }
{
    Log {
        lines: Vec::new(rt.alloc()),
    }
}

// A seat that is made behind a turn of the root finds the line that it left, and so does the close.
#[test]
fn a_new_seat_finds_what_the_root_left(rt: HostRuntime) {
    let Ok((gate, mut root)) = Turnstile::new(rt.alloc(), empty(&rt)) else {
        panic!(&rt; "no memory");
    };
    add_root(&rt, &gate, &mut root, Line { who: 0, number: 0 });
    let mut seat = gate.seat(&mut root);
    let turn = gate.enter(&rt, &mut seat);
    let found = lines_in_order(&turn.value, 0);
    gate.leave(&mut seat, turn);
    gate.rejoin(&mut root, seat);
    let Ok(log) = gate.close(root) else {
        unreachable!();
    };
    let left = lines_in_order(&log, 0);
    let count = log.lines.len();
    drop(log);
    let same = found == Some(1) && left == Some(1) && count == 1;
    assert!(rt; same, "other lines, or no memory for them");
}

// No clause says that a thread that waits gets on. Where the end of a turn lets nobody in, some thread waits for ever here. Callers near their turn look
// before they sleep, so that few sleep here.
#[test]
fn the_root_and_two_seats_take_many_turns(rt: HostRuntime) {
    let Ok((gate, mut root)) = Turnstile::new(rt.alloc(), empty(&rt)) else {
        panic!(&rt; "no memory");
    };
    let mut one = gate.seat(&mut root);
    let mut two = gate.seat(&mut root);
    let (handle, shared) = (&rt, &gate);
    join_mut(
        handle,
        &mut || add_many_root(handle, shared, &mut root, TURNS),
        &mut || add_both(handle, shared, &mut one, &mut two),
    );
    gate.rejoin(&mut root, one);
    gate.rejoin(&mut root, two);
    let Ok(log) = gate.close(root) else {
        unreachable!();
    };
    for who in 0..3 {
        let same = lines_in_order(&log, who) == Some(TURNS);
        assert!(rt; same, "other lines, or no memory for them");
    }
    drop(log);
}

//! Agents of the ports on threads of their own.
ghost use Rattle.std.specs.Prelude.{◌≡◌, ◌+◌, ◌<◌, ◌≤◌, [], length, false};
ghost use Rattle.coflow_units.specs.declared.limits.TheConstants.{MAX_SLOT};

use crate::begun::board_of;
use outside::{CountWire, MemWire};
use port_agent::{Agent, Served};
use port_board::{PortBoard, Poster, Settled};
use std::alloc::Global;
use std::process::Abort;
use std::thread::{Threads, join_mut};

// One post of this length at port 0, served on one wire.
fn serve_once(
    board: &PortBoard,
    poster: &mut Poster,
    wire: MemWire,
    length: u64,
) -> (Served, Settled)
    requires own { poster.old.at ≡ board.now.id }
    requires fresh { (poster.old.view.posts ≡ []) × (poster.old.view.settled ≡ []) × (poster.old.view.made ≡ 0) ×
        (poster.old.view.back ≡ []) }
    requires ports { 1 ≤ board.now.ports }
    requires length { (1 ≤ length) × (length ≤ MAX_SLOT) }
{
    let seat = board.agent(poster);
    board.post(poster, 0, 1, 0, length);
    let mut agent = Agent::new(seat);
    let mut wires = [wire];
    let served = agent.serve(board, 0, &mut wires);
    let answer = board.settle(poster, 0);
    board.back(poster, agent.into_seat());
    (served, answer)
}

// A wire that does not accept the unit with this number.
fn wire_of(rt: &impl Abort, alloc: Global, fail_at: u64) -> MemWire {
    let Ok(wire) = MemWire::new(alloc, 4, Some(fail_at)) else {
        panic!(rt; "no memory");
    };
    wire
}

#[test]
fn what_a_wire_accepts_is_reported(rt: HostRuntime) {
    // the length, the unit that fails, and what is served: drawn, sent, short
    let rows = [(1, 1, (1, 0, 1)), (5, 3, (1, 2, 1)), (5, 9, (1, 5, 0))];
    for (length, fail_at, want) in rows {
        let (board, mut poster) = board_of(&rt, rt.alloc(), 1);
        let wire = wire_of(&rt, rt.alloc(), fail_at);
        let (served, answer) = serve_once(&board, &mut poster, wire, length);
        let have = (served.drawn, served.sent, served.short);
        assert!(rt; have == want && answer == Settled::Sent(want.1));
    }
}

// A post at each port.
fn post_all(board: &PortBoard, poster: &mut Poster, length: u64)
    requires own { poster.old.at ≡ board.now.id }
    requires fresh { poster.old.view.posts ≡ [] }
    requires length { (1 ≤ length) × (length ≤ 50) }
    ensures own { poster.new.at ≡ board.entry.now.id }
{
    for port in 0..board.ports() {
        board.post(poster, port, 1, port, length);
    }
}

// The first port whose post is not settled by this number of units.
fn settled_otherwise(board: &PortBoard, poster: &mut Poster, units: u64) -> Option<u32>
    requires own { poster.old.at ≡ board.now.id }
{
    for port in 0..board.ports() {
        if !poster.posted(port) {
            return Some(port);
        }
        let answer = board.settle(poster, port);
        if answer != Settled::Sent(units) {
            return Some(port);
        }
    }
    None
}

// The first port at which not exactly one of the three agents sent, and so many units.
fn sent_otherwise(
    first: &[CountWire; 64],
    second: &[CountWire; 64],
    third: &[CountWire; 64],
    units: u64,
) -> Option<usize> {
    for port in 0..64usize {
        let mut sent = [first[port].sent, second[port].sent, third[port].sent];
        sent.sort_unstable();
        if sent != [0, 0, units] {
            return Some(port);
        }
    }
    None
}

// Two agents serve all ports, each on a thread: how many grants they drew, and how many units they sent.
fn serve_both(
    rt: &impl Threads,
    board: &PortBoard,
    one: &mut Agent,
    two: &mut Agent,
    one_wires: &mut [CountWire; 64],
    two_wires: &mut [CountWire; 64],
) -> (u32, u64)
    requires own { (one.old.at ≡ board.now.id) × (two.old.at ≡ board.now.id) }
    requires ports { 64 ≤ board.now.ports }
    ensures own { (one.new.at ≡ one.old.at) × (two.new.at ≡ two.old.at) }
    ensures out { (one.new.view.out ≡ one.old.view.out) × (two.new.view.out ≡ two.old.view.out) }
{
    let (left, right) = join_mut(
        rt,
        &mut || one.serve(board, 0, one_wires),
        &mut || two.serve(board, 0, two_wires),
    );
    (
        left.drawn.saturating_add(right.drawn),
        left.sent.saturating_add(right.sent),
    )
}

// How many units all these wires have sent.
fn total(wires: &[CountWire; 64]) -> u64 {
    let mut units = 0u64;
    for wire in wires {
        units = units.saturating_add(wire.sent);
    }
    units
}

// Three agents serve all ports, each on a thread: what the first one served, and how many grants the others drew, and how many units they sent.
fn serve_all(
    rt: &impl Threads,
    board: &PortBoard,
    one: &mut Agent,
    two: &mut Agent,
    three: &mut Agent,
    wires: &mut [CountWire; 64],
    others: (&mut [CountWire; 64], &mut [CountWire; 64]),
) -> (Served, (u32, u64))
    requires own { (one.old.at ≡ board.now.id) × (two.old.at ≡ board.now.id) × (three.old.at ≡ board.now.id) }
    requires ports { 64 ≤ board.now.ports }
    ensures own { (one.new.at ≡ one.old.at) × (two.new.at ≡ two.old.at) × (three.new.at ≡ three.old.at) }
    ensures out { (one.new.view.out ≡ one.old.view.out) × (two.new.view.out ≡ two.old.view.out) ×
        (three.new.view.out ≡ three.old.view.out) }
{
    let (two_wires, three_wires) = others;
    join_mut(
        rt,
        &mut || one.serve(board, 0, wires),
        &mut || serve_both(rt, board, two, three, two_wires, three_wires),
    )
}

// What came of a round: the first ports that were sent or settled otherwise, how many grants were drawn and units sent, and whether the wires of the first agent have what it says.
#[derive(Clone, Copy, PartialEq)]
struct Round {
    sent_otherwise: Option<usize>,
    settled_otherwise: Option<u32>,
    drawn: u32,
    sent: u64,
    first_is_right: bool,
}

// Three agents serve a post of this length at each of 64 ports, each on a thread.
fn played(rt: &(impl Threads + Abort), alloc: Global, length: u64) -> Round
    requires length { (1 ≤ length) × (length ≤ 50) }
{
    let (board, mut poster) = board_of(rt, alloc, 64);
    let mut first = Agent::new(board.agent(&mut poster));
    let mut second = Agent::new(board.agent(&mut poster));
    let mut third = Agent::new(board.agent(&mut poster));
    post_all(&board, &mut poster, length);
    let mut wires = [CountWire { sent: 0 }; 64];
    let mut second_wires = [CountWire { sent: 0 }; 64];
    let mut third_wires = [CountWire { sent: 0 }; 64];
    let (served, others) = serve_all(
        rt,
        &board,
        &mut first,
        &mut second,
        &mut third,
        &mut wires,
        (&mut second_wires, &mut third_wires),
    );
    board.back(&mut poster, first.into_seat());
    board.back(&mut poster, second.into_seat());
    board.back(&mut poster, third.into_seat());
    Round {
        sent_otherwise: sent_otherwise(&wires, &second_wires, &third_wires, length),
        settled_otherwise: settled_otherwise(&board, &mut poster, length),
        drawn: served.drawn.saturating_add(others.0),
        sent: served.sent.saturating_add(others.1),
        first_is_right: served.sent == total(&wires),
    }
}

#[test]
fn agents_on_threads_share_the_grants(rt: HostRuntime) {
    for length in 1..=50u64 {
        let want = Round {
            sent_otherwise: None,
            settled_otherwise: None,
            drawn: 64,
            sent: length * 64,
            first_is_right: true,
        };
        assert!(rt; played(&rt, rt.alloc(), length) == want);
    }
}

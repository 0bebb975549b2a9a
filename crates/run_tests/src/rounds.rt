//! Small rounds, and what they come to.
ghost use Rattle.std.specs.Prelude.{◌≡◌, ◌≤◌, IsTrue, All, length};
ghost use Rattle.coflow_units.specs.declared.limits.TheConstants.{MAX_WEIGHT};
ghost use Rattle.journal.specs.Answer.{IsInRange};
ghost use Rattle.live_model.specs.Script.{command_of};
ghost use Rattle.client_session.specs.Models.{IsSessionOf};
ghost use Rattle.live_rounds.specs.Rounds.{MayAsk};

use crate::begun::{small_of, tell_journal};
use client_session::{Hall, Session};
use coflow_units::MAX_WEIGHT;
use live_rounds::{OpenGate, round};
use std::alloc::Global;
use std::process::Abort;
use std::sync::Wait;
use std::test::*;
use std::thread::Threads;
use workload::{Asked, ScriptLine};

/// The line of a client.
fn line(line: u32, client: u32, asked: Asked) -> ScriptLine {
    ScriptLine {
        line,
        client,
        asked,
    }
}

/// Whether what is asked is in range.
fn is_in_range(hall: &Hall, asked: Asked) -> bool
    ensures { IsTrue result → IsInRange hall.now.setting.opening (command_of asked) }
{
    let coflows = hall.coflows();
    match asked {
        Asked::Register(coflow) => coflow < coflows,
        Asked::Withdraw(coflow) => coflow < coflows,
        Asked::Pull(coflow) => coflow < coflows,
        Asked::Reweigh(coflow, weight) => { coflow < coflows && is_weight(weight) }
        Asked::Publish => true,
    }
}

fn is_weight(weight: u64) -> bool
    ensures { IsTrue result → (1 ≤ weight) × (weight ≤ MAX_WEIGHT) }
{
    weight > 0 && weight <= MAX_WEIGHT
}

/// Stops a test at a line that is not of one of two clients, or out of range.
fn check_line(rt: &impl Abort, hall: &Hall, line: ScriptLine)
    ensures { MayAsk hall.now.setting.opening 2 line }
{
    let in_range = is_in_range(hall, line.asked);
    assert!(rt; in_range);
    assert!(rt; line.client >= 1);
    assert!(rt; line.client <= 2);
}

/// The same for all lines.
fn check_lines(rt: &impl Abort, hall: &Hall, lines: &[ScriptLine])
    ensures { All (MayAsk hall.now.setting.opening 2) lines.now }
{
    for line in lines {
        check_line(rt, hall, *line);
    }
}

/// Carries out a round of two clients, and tells what it comes to.
fn tell_round<R: Threads + Wait + Sync + Abort>(
    rt: &R,
    alloc: Global,
    hall: &Hall,
    sessions: &mut Vec<Session>,
    lines: &[ScriptLine],
    text: &mut String,
)
    requires own { All (IsSessionOf hall.now) sessions.old.items }
    requires two { length sessions.old.items ≡ 2 }
    ensures own { All (IsSessionOf hall.entry.now) sessions.new.items }
    ensures two { length sessions.new.items ≡ 2 }
{
    let mut gates = [OpenGate, OpenGate];
    check_lines(rt, hall, lines);
    let answer = round(alloc, rt, hall, sessions, lines, &mut gates);
    let Ok(()) = writeln!(text, "{answer:?}") else {
        panic!(rt; "no memory");
    };
}

/// What a round comes to in a hall with so much room for entries, where each client may take so many turns, and the
/// journal after it.
fn told<R: Threads + Wait + Sync + Abort>(
    rt: &R,
    alloc: Global,
    limit: u32,
    calls: u32,
    lines: &[ScriptLine],
) -> String
    requires limit { (1 ≤ limit) × (limit ≤ 100) }
{
    let mut text = String::new(alloc);
    let mut small = small_of(rt, alloc, limit, calls);
    tell_round(
        rt,
        alloc,
        &small.hall,
        &mut small.sessions,
        lines,
        &mut text,
    );
    tell_journal(rt, alloc, small, &mut text);
    text
}

/// Stops where a round comes to something else, by the room for entries and the turns of each client.
fn is_told<R: Threads + Wait + Sync + Abort>(
    rt: &R,
    alloc: Global,
    size: (u32, u32),
    lines: &[ScriptLine],
    want: &str,
)
    requires limit { (1 ≤ size.0) × (size.0 ≤ 100) }
{
    let have = told(rt, alloc, size.0, size.1, lines);
    assert_eq!(rt; have.as_str(), want);
    drop(have);
}

#[test]
fn a_client_carries_out_its_lines_in_order(rt: HostRuntime) {
    let lines = [
        line(1, 1, Asked::Register(0)),
        line(2, 1, Asked::Register(1)),
        line(3, 1, Asked::Publish),
        line(4, 1, Asked::Pull(1)),
    ];
    let want = "\
Ok([PullDone { client: 1, line: 4, coflow: 1, version: 1, rank: 1 }])
1 Register(0) Joined
1 Register(1) Joined
1 Publish Version(1)
";
    is_told(&rt, rt.alloc(), (100, 4), &lines, want);
}

#[test]
fn pulls_are_told_by_client_and_then_by_line(rt: HostRuntime) {
    let lines = [
        line(1, 2, Asked::Pull(1)),
        line(2, 1, Asked::Pull(0)),
        line(3, 1, Asked::Pull(1)),
    ];
    let want = "\
Ok([PullDone { client: 1, line: 2, coflow: 0, version: 0, rank: 0 }, PullDone { client: 1, line: 3, coflow: 1, version: 0, rank: 0 }, PullDone { client: 2, line: 1, coflow: 1, version: 0, rank: 0 }])
";
    is_told(&rt, rt.alloc(), (100, 4), &lines, want);
}

#[test]
fn a_full_journal_stops_a_client(rt: HostRuntime) {
    let lines = [
        line(1, 2, Asked::Register(0)),
        line(2, 2, Asked::Reweigh(0, 5)),
        line(3, 2, Asked::Publish),
        line(4, 2, Asked::Pull(0)),
    ];
    let want = "\
Err(Full(2))
2 Register(0) Joined
2 Reweigh { coflow: 0, weight: 5 } Weighed(1)
";
    is_told(&rt, rt.alloc(), (2, 4), &lines, want);
}

#[test]
fn a_client_without_calls_stops(rt: HostRuntime) {
    let lines = [
        line(1, 1, Asked::Register(0)),
        line(2, 1, Asked::Withdraw(0)),
        line(3, 1, Asked::Pull(0)),
    ];
    let want = "\
Err(Spent)
1 Register(0) Joined
";
    is_told(&rt, rt.alloc(), (100, 1), &lines, want);
}

#[test]
fn a_round_without_lines_asks_nothing(rt: HostRuntime) {
    is_told(&rt, rt.alloc(), (100, 1), &[], "Ok([])\n");
}

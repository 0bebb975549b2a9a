//! Calls of a hall, and what they answer.
ghost use Rattle.std.specs.Prelude.{◌≡◌, ◌≤◌, All, length, vec_capacity};
ghost use Rattle.client_session.specs.Models.{IsDriverOf, IsSessionOf};

use crate::orders::{Order, obeyed};
use client_session::{Driver, Hall, Session};
use coflow_units::Place;
use std::alloc::Global;
use std::fmt::Debug;
use std::process::Abort;
use std::sync::Wait;
use test_support::{Ask, Said, answered};

/// A call: of the driver, of a session by its place, or of the hall. `Seen` asks nothing of a session.
#[derive(Clone, Copy)]
pub(crate) enum Call {
    Driver(Order),
    Granted(u32),
    Client(usize, Ask),
    Seen(usize),
    Level,
}

/// The text of an answer.
fn text_of(rt: &impl Abort, alloc: Global, answer: impl Debug + Drop) -> String {
    let Ok(text) = format!(in alloc; "{answer:?}") else {
        panic!(rt; "no memory");
    };
    text
}

/// Adds how many calls a driver has left.
fn tell_left(rt: &impl Abort, text: &mut String, driver: &Driver) {
    let Ok(()) = write!(text, ", {}", driver.calls_left()) else {
        panic!(rt; "no memory");
    };
}

/// Adds the newest position and version that a session has seen, and how many calls it has left.
fn tell_seen(rt: &impl Abort, text: &mut String, sessions: &[Session], at: usize) {
    let Some(session) = sessions.get(at) else {
        panic!(rt; "no such session");
    };
    let (position, version) = (session.seen_position(), session.seen_version());
    tell_numbers(rt, text, position, version, session.calls_left());
}

/// Adds a position, a version, and how many calls are left.
fn tell_numbers(rt: &impl Abort, text: &mut String, position: u32, version: u32, left: u32) {
    let Ok(()) = write!(text, ", {position} {version} {left}") else {
        panic!(rt; "no memory");
    };
}

/// Asks the session at a place, and tells its answer.
fn session_told<R: Wait + Abort>(
    rt: &R,
    alloc: Global,
    hall: &Hall,
    sessions: &mut [Session],
    at: usize,
    ask: Ask,
) -> String
    requires own { All (IsSessionOf hall.now) sessions.old }
    requires coflows { length hall.now.setting.opening.table.ids ≡ 2 }
    ensures own { All (IsSessionOf hall.entry.now) sessions.new }
{
    assert!(rt; at < sessions.len());
    match answered(rt, hall, &mut sessions[at], ask) {
        Said::Turn(answer) => text_of(rt, alloc, answer),
        Said::Pull(pulled) => text_of(rt, alloc, pulled),
    }
}

/// Makes a call, and tells its answer.
pub(crate) fn told<R: Wait + Abort>(
    rt: &R,
    alloc: Global,
    hall: &Hall,
    driver: &mut Driver,
    sessions: &mut [Session],
    places: &mut Vec<Place>,
    call: Call,
) -> String
    requires driver { IsDriverOf hall.now driver.old }
    requires sessions { All (IsSessionOf hall.now) sessions.old }
    requires coflows { length hall.now.setting.opening.table.ids ≡ 2 }
    requires ports { 2 ≤ hall.now.setting.opening.table.ports }
    requires room { 2 ≤ vec_capacity places.old }
    ensures driver { IsDriverOf hall.entry.now driver.new }
    ensures sessions { All (IsSessionOf hall.entry.now) sessions.new }
    ensures room { vec_capacity places.new ≡ vec_capacity places.old }
{
    match call {
        Call::Driver(order) => {
            let answer = obeyed(rt, hall, driver, places, order);
            let mut text = text_of(rt, alloc, answer);
            tell_left(rt, &mut text, driver);
            text
        }
        Call::Granted(ingress) => text_of(rt, alloc, driver.granted(ingress)),
        Call::Client(at, ask) => {
            let mut text = session_told(rt, alloc, hall, sessions, at, ask);
            tell_seen(rt, &mut text, sessions, at);
            text
        }
        Call::Seen(at) => {
            let mut text = String::new(alloc);
            tell_seen(rt, &mut text, sessions, at);
            text
        }
        Call::Level => {
            hall.level(driver, sessions);
            String::new(alloc)
        }
    }
}

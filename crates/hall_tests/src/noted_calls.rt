//! The calls of a session, and what it notes of them.
ghost use Rattle.std.specs.Prelude.{◌≡◌, length};
ghost use Rattle.client_session.specs.Models.{IsSessionOf};

use crate::versions::Note;
use client_session::{Hall, Session};
use rank_board::Pulled;
use std::sync::Wait;
use test_support::{Ask, Said, answered};

/// How many turns a session may take.
pub const TURNS: u32 = 400;

/// Which calls they are.
#[derive(Clone, Copy)]
pub enum Mode {
    /// Each session takes turns of all kinds.
    Turns,
    /// Session 1 publishes, and the others pull, mostly without a turn.
    Pulls,
}

/// The call of a session.
fn ask_of(mode: Mode, who: u32, call: u32) -> Ask {
    match mode {
        Mode::Turns => turn_of(who.wrapping_add(call)),
        Mode::Pulls if who == 1 => publishing(call),
        Mode::Pulls if call % 100 == 99 => Ask::PullTurn(call / 100),
        Mode::Pulls => Ask::Pull(call),
    }
}

/// How many calls a session makes. One that pulls takes a turn for each hundredth.
fn calls_of(mode: Mode, who: u32) -> u32 {
    match mode {
        Mode::Pulls if who > 1 => 10 * TURNS,
        _ => TURNS,
    }
}

/// A turn of each kind.
fn turn_of(kind: u32) -> Ask {
    match kind % 7 {
        0 => Ask::Register(kind / 7),
        1 | 4 => Ask::PullTurn(kind),
        2 => Ask::Reweigh(0, kind % 5),
        3 => Ask::Reweigh(1, kind % 3),
        5 if kind >= TURNS => Ask::Withdraw(kind),
        _ => Ask::Publish,
    }
}

/// Both coflows join, and then ranks change again and again.
fn publishing(call: u32) -> Ask {
    match call % 3 {
        _ if call < 2 => Ask::Register(call),
        0 => Ask::Reweigh(0, call % 7),
        _ => Ask::Publish,
    }
}

/// What is noted of an answer.
fn note_of(session: &Session, ask: Ask, said: Said) -> Option<Note> {
    let Ask::Pull(coflow) = ask else {
        return None;
    };
    let (version, rank) = match said {
        Said::Pull(Pulled::Rank { version, rank }) => (version, rank),
        Said::Pull(Pulled::Unranked { version }) => (version, 0),
        _ => return None,
    };
    Some(Note {
        who: session.number(),
        coflow: coflow % 2,
        version,
        rank,
        mark: session.receipts().len(),
    })
}

/// Makes the calls of a session, and keeps what it notes. The answer is whether there was memory for all of it.
pub fn play<R: Wait>(
    rt: &R,
    hall: &Hall,
    session: &mut Session,
    mode: Mode,
    notes: &mut Vec<Note>,
) -> bool
    requires own { IsSessionOf hall.now session.old }
    requires coflows { length hall.now.setting.opening.table.ids ≡ 2 }
    ensures own { IsSessionOf hall.entry.now session.new }
{
    let who = session.number();
    let mut whole = true;
    for call in 0..calls_of(mode, who) {
        let ask = ask_of(mode, who, call);
        let said = answered(rt, hall, session, ask);
        if let Some(note) = note_of(session, ask, said) {
            whole = notes.push(note).is_ok() && whole;
        }
    }
    whole
}

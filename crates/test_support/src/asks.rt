//! What sessions of small halls are asked.
ghost use Rattle.std.specs.Prelude.{◌≡◌, length};
ghost use Rattle.client_session.specs.Models.{IsSessionOf};

use client_session::{Answer, Hall, Session};
use rank_board::Pulled;
use std::sync::Wait;

/// What a session is asked, as a value. Coflows are 0 and 1.
#[derive(Clone, Copy)]
pub enum Ask {
    Register(u32),
    Withdraw(u32),
    Publish,
    PullTurn(u32),
    Reweigh(u32, u32),
    Pull(u32),
}

/// What it answered.
#[derive(Clone, Copy)]
pub enum Said {
    Turn(Answer),
    Pull(Pulled),
}

/// Asks a session of a small hall: what it answers. A coflow is asked by its remainder of 2, and a weight of 0 as 1.
pub fn answered<R: Wait>(rt: &R, hall: &Hall, session: &mut Session, ask: Ask) -> Said
    requires own { IsSessionOf hall.now session.old }
    requires coflows { length hall.now.setting.opening.table.ids ≡ 2 }
    ensures own { IsSessionOf hall.entry.now session.new }
{
    let answer = match ask {
        Ask::Register(coflow) => session.register(rt, hall, coflow % 2),
        Ask::Withdraw(coflow) => session.withdraw(rt, hall, coflow % 2),
        Ask::Publish => session.publish(rt, hall),
        Ask::PullTurn(coflow) => session.pull_turn(rt, hall, coflow % 2),
        Ask::Reweigh(coflow, weight) => {
            session.reweigh(rt, hall, coflow % 2, u64::from(weight).max(1))
        }
        Ask::Pull(coflow) => return Said::Pull(session.pull(hall, coflow % 2)),
    };
    Said::Turn(answer)
}

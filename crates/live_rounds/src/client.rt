//! The lines of one client.
ghost use Rattle.client_session.specs.Models.{IsSessionOf};
ghost use Rattle.live_rounds.specs.Parts.{IsReady, Plays};

use crate::gate::Gate;
use crate::line::carry_out;
use crate::part::{Part, keep};
use client_session::{Hall, Session};
use std::sync::Wait;

/// Carries out the lines of a client in its session, in order. It passes the gate before each, and stops where a turn
/// finds no room in the journal or no call is left for one.
pub(crate) fn play<R: Wait, G: Gate>(
    rt: &R,
    hall: &Hall,
    session: &mut Session,
    gate: &mut G,
    part: &mut Part,
)
    requires own { IsSessionOf hall.now session.old }
    requires ready { IsReady hall.now.setting.opening part.old }
    ensures { Plays hall.now.setting.opening session.old session.new part.old part.new }
{
    for index in 0..part.lines.len() {
        let line = part.lines[index];
        gate.pass(line.line);
        let answer = carry_out(rt, hall, session, line);
        let going = keep(part, answer);
        if !going {
            return;
        }
    }
}

//! A round of the script.
ghost use Rattle.std.specs.Prelude.{◌≡◌, ◌+◌, ◌<◌, ◌≤◌, Err, OnOk, length};
ghost use Rattle.slot_runner.specs.Crews.{IsAt};
ghost use Rattle.live_serving.specs.declared.stop.Stop.TheVariants.{Full};
ghost use Rattle.live_serving.specs.Going.{IsFilled, IsGoing};
ghost use Rattle.live_serving.specs.Openings.{AreServed};
ghost use Rattle.live_rounds.specs.declared.answer.RoundStop.TheVariants.{Spent};
ghost use Rattle.live_serving.specs.Playing.{Settles};

use crate::beside::{Came, advance};
use crate::stage::Stage;
use crate::stop::Stop;
use client_session::Session;
use live_rounds::{Gate, PullDone, RoundStop};
use outside::Wire;
use slot_runner::Crew;
use std::sync::Wait;
use std::thread::Threads;

/// Plays one round of the script, of which so many are done, and lets all callers see what one of them has seen. The
/// pulls of the round go behind those before.
///
/// The error says why it went no further: a turn found no room in the journal, the wire of a port accepted fewer units
/// than it was sent, or no memory was to be had.
pub(crate) fn play_round<R: Threads + Wait + Sync, W: Wire + Send, G: Gate + Send>(
    rt: &R,
    stage: &Stage<'_, W>,
    done: usize,
    crew: &mut Crew<W>,
    sessions: &mut [Session],
    pulls: &mut Vec<PullDone>,
    gates: &mut [G],
) -> Result<(), Stop>
    requires going { IsGoing stage.now.hall.now stage.now.script.now stage.now.most done crew.old.runner sessions.old
        pulls.old.items }
    requires one_more { done < length stage.now.script.now.rounds }
    requires most { 1 ≤ stage.now.most }
    requires site { IsAt stage.now.site.now crew.old }
    requires gates { length gates.old ≡ length sessions.old }
    requires wires { stage.now.hall.now.setting.opening.table.ports ≤ length crew.old.wires }
    ensures going { OnOk result (IsGoing stage.now.hall.now stage.now.script.now stage.now.most (done + 1)
        crew.new.runner sessions.new pulls.new.items) }
    ensures filled { result ≡ Err Full →
        IsFilled stage.now.hall.now stage.now.script.now stage.now.most crew.new.runner.driver sessions.new }
    ensures wires { AreServed W.faults W.runs stage.now.hall.now crew.old.runner crew.new.runner crew.old.wires
        crew.new.wires result }
    ensures stays { (crew.new.at ≡ crew.old.at) × (crew.new.places ≡ crew.old.places) }
{
    let round = &stage.script.rounds.as_slice()[done];
    let came = advance(rt, stage, round, crew, sessions, gates);
    let more = pulls_of(came)?;
    stage.hall.level(crew.driver(), sessions);
    pulls.extend_from_slice(&more)?;
    Ok(())
}

// The pulls of a round, or why the driver stopped, or else why the clients did. No client had no call left.
fn pulls_of(came: Came) -> Result<Vec<PullDone>, Stop>
    requires never_spent { came.0 ≡ Err Spent → ⊥ }
    ensures { Settles came result }
{
    let (told, opened) = came;
    if let Err(stop) = opened {
        return Err(stop);
    }
    match told {
        Ok(pulls) => Ok(pulls),
        Err(RoundStop::Full(_)) => Err(Stop::Full),
        Err(RoundStop::NoMemory) => Err(Stop::NoMemory),
        Err(RoundStop::Spent) => unreachable!(),
    }
}

//! All rounds of a script, and the runs after them.
ghost use Rattle.std.specs.Prelude.{◌≡◌, ◌≤◌, Err, OnOk, length};
ghost use Rattle.slot_runner.specs.Crews.{IsAt};
ghost use Rattle.live_serving.specs.declared.stop.Stop.TheVariants.{Full};
ghost use Rattle.live_serving.specs.Going.{IsEnded, IsEnding, IsFilled, IsGoing};
ghost use Rattle.live_serving.specs.Openings.{AreServed};

use crate::opening::open_once;
use crate::rounds::play_round;
use crate::stage::Stage;
use crate::stop::Stop;
use client_session::Session;
use live_rounds::{Gate, PullDone};
use outside::Wire;
use slot_runner::Crew;
use std::sync::Wait;
use std::thread::Threads;

/// Plays all rounds of the script, and then opens runs until nothing is left.
pub(crate) fn serve<R: Threads + Wait + Sync, W: Wire + Send, G: Gate + Send>(
    rt: &R,
    stage: &Stage<'_, W>,
    crew: &mut Crew<W>,
    sessions: &mut [Session],
    pulls: &mut Vec<PullDone>,
    gates: &mut [G],
) -> Result<(), Stop>
    requires going { IsGoing stage.now.hall.now stage.now.script.now stage.now.most 0 crew.old.runner sessions.old
        pulls.old.items }
    requires most { 1 ≤ stage.now.most }
    requires site { IsAt stage.now.site.now crew.old }
    requires gates { length gates.old ≡ length sessions.old }
    requires wires { stage.now.hall.now.setting.opening.table.ports ≤ length crew.old.wires }
    ensures ended { OnOk result (IsEnded stage.now.hall.now stage.now.script.now stage.now.most
        crew.new.runner.driver sessions.new pulls.new.items) }
    ensures filled { result ≡ Err Full →
        IsFilled stage.now.hall.now stage.now.script.now stage.now.most crew.new.runner.driver sessions.new }
    ensures wires { AreServed W.faults W.runs stage.now.hall.now crew.old.runner crew.new.runner crew.old.wires
        crew.new.wires result }
    ensures stays { (crew.new.at ≡ crew.old.at) × (crew.new.places ≡ crew.old.places) }
{
    play_all(rt, stage, crew, sessions, pulls, gates)?;
    run_out(rt, stage, crew, sessions, pulls)
}

// Plays all rounds of the script.
fn play_all<R: Threads + Wait + Sync, W: Wire + Send, G: Gate + Send>(
    rt: &R,
    stage: &Stage<'_, W>,
    crew: &mut Crew<W>,
    sessions: &mut [Session],
    pulls: &mut Vec<PullDone>,
    gates: &mut [G],
) -> Result<(), Stop>
    requires going { IsGoing stage.now.hall.now stage.now.script.now stage.now.most 0 crew.old.runner sessions.old
        pulls.old.items }
    requires most { 1 ≤ stage.now.most }
    requires site { IsAt stage.now.site.now crew.old }
    requires gates { length gates.old ≡ length sessions.old }
    requires wires { stage.now.hall.now.setting.opening.table.ports ≤ length crew.old.wires }
    ensures ending { OnOk result (IsEnding stage.now.hall.now stage.now.script.now stage.now.most crew.new.runner
        sessions.new pulls.new.items) }
    ensures filled { result ≡ Err Full →
        IsFilled stage.now.hall.now stage.now.script.now stage.now.most crew.new.runner.driver sessions.new }
    ensures wires { AreServed W.faults W.runs stage.now.hall.now crew.old.runner crew.new.runner crew.old.wires
        crew.new.wires result }
    ensures stays { (crew.new.at ≡ crew.old.at) × (crew.new.places ≡ crew.old.places) }
{
    for done in 0..stage.script.rounds.as_slice().len() {
        play_round(rt, stage, done, crew, sessions, pulls, gates)?;
    }
    Ok(())
}

// Opens runs, one after another, until nothing is left. The clients carry out no more lines.
fn run_out<R: Wait, W: Wire>(
    rt: &R,
    stage: &Stage<'_, W>,
    crew: &mut Crew<W>,
    _sessions: &[Session],
    _pulls: &[PullDone],
) -> Result<(), Stop>
    requires ending { IsEnding stage.now.hall.now stage.now.script.now stage.now.most crew.old.runner _sessions.now
        _pulls.now }
    requires most { 1 ≤ stage.now.most }
    requires site { IsAt stage.now.site.now crew.old }
    requires wires { stage.now.hall.now.setting.opening.table.ports ≤ length crew.old.wires }
    ensures ended { OnOk result (IsEnded stage.now.hall.now stage.now.script.now stage.now.most
        crew.new.runner.driver _sessions.now _pulls.now) }
    ensures filled { result ≡ Err Full →
        IsFilled stage.now.hall.now stage.now.script.now stage.now.most crew.new.runner.driver _sessions.now }
    ensures wires { AreServed W.faults W.runs stage.now.hall.now crew.old.runner crew.new.runner crew.old.wires
        crew.new.wires result }
    ensures stays { (crew.new.at ≡ crew.old.at) × (crew.new.places ≡ crew.old.places) }
{
    'runs: loop {
        let some = open_once(rt, stage.hall, stage.site, stage.most, crew)?;
        if !some {
            return Ok(());
        }
    }
}

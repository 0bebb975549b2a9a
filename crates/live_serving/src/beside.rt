//! A round beside a run of slots.
ghost use Rattle.std.specs.Prelude.{◌≡◌, ◌≤◌, All, length};
ghost use denote.Param.Send.{IsSync};
ghost use Rattle.client_session.specs.Models.{IsSessionOf};
ghost use Rattle.slot_runner.specs.Crews.{IsAt};
ghost use Rattle.live_rounds.specs.Rounds.{MayAsk};
ghost use Rattle.live_serving.specs.Driving.{MayDrive};
ghost use Rattle.live_serving.specs.Openings.{AreServed, GoesOn, IsOpening};
ghost use Rattle.live_serving.specs.Playing.{HasPlayed};

use crate::opening::open_once;
use crate::stage::Stage;
use crate::stop::Stop;
use client_session::{Hall, Session};
use live_rounds::{Gate, PullDone, RoundStop, round};
use outside::Wire;
use slot_runner::Crew;
use std::alloc::Global;
use std::sync::Wait;
use std::thread::{Threads, join_mut};
use workload::{Round, ScriptLine};

/// What the clients of a round came to, and its run of slots. `Ok(false)` stands for both that nothing is left and that
/// no run was asked for.
pub(crate) type Came = (Result<Vec<PullDone>, RoundStop>, Result<bool, Stop>);

/// The clients carry out the lines of the round, beside a run of slots where the round asks for one.
pub(crate) fn advance<R: Threads + Wait + Sync, W: Wire + Send, G: Gate + Send>(
    rt: &R,
    stage: &Stage<'_, W>,
    round: &Round,
    crew: &mut Crew<W>,
    sessions: &mut [Session],
    gates: &mut [G],
) -> Came
    requires may { MayDrive stage.now.hall.now stage.now.most crew.old.runner }
    requires most { 1 ≤ stage.now.most }
    requires site { IsAt stage.now.site.now crew.old }
    requires wires { stage.now.hall.now.setting.opening.table.ports ≤ length crew.old.wires }
    requires own { All (IsSessionOf stage.now.hall.now) sessions.old }
    requires gates { length gates.old ≡ length sessions.old }
    requires lines { All (MayAsk stage.now.hall.now.setting.opening (length sessions.old)) round.now.lines }
    ensures clients { HasPlayed stage.now.hall.now round.now.lines sessions.old sessions.new result.0 }
    ensures driver { GoesOn stage.now.hall.now stage.now.most round.now.runs crew.old.runner crew.new.runner result.1 }
    ensures wires { AreServed W.faults W.runs stage.now.hall.now crew.old.runner crew.new.runner crew.old.wires
        crew.new.wires result.1 }
    ensures stays { (crew.new.at ≡ crew.old.at) × (crew.new.places ≡ crew.old.places) }
{
    if round.runs {
        return both(rt, stage, round.lines.as_slice(), crew, sessions, gates);
    }
    let told = play(
        stage.alloc,
        rt,
        stage.hall,
        round.lines.as_slice(),
        sessions,
        gates,
    );
    (told, Ok(false))
}

// The clients carry out the lines beside a run of slots.
fn both<R: Threads + Wait + Sync, W: Wire + Send, G: Gate + Send>(
    rt: &R,
    stage: &Stage<'_, W>,
    lines: &[ScriptLine],
    crew: &mut Crew<W>,
    sessions: &mut [Session],
    gates: &mut [G],
) -> Came
    requires may { MayDrive stage.now.hall.now stage.now.most crew.old.runner }
    requires most { 1 ≤ stage.now.most }
    requires site { IsAt stage.now.site.now crew.old }
    requires wires { stage.now.hall.now.setting.opening.table.ports ≤ length crew.old.wires }
    requires own { All (IsSessionOf stage.now.hall.now) sessions.old }
    requires gates { length gates.old ≡ length sessions.old }
    requires lines { All (MayAsk stage.now.hall.now.setting.opening (length sessions.old)) lines.now }
    ensures clients { HasPlayed stage.now.hall.now lines.now sessions.old sessions.new result.0 }
    ensures driver { IsOpening stage.now.hall.now stage.now.most crew.old.runner crew.new.runner result.1 }
    ensures wires { AreServed W.faults W.runs stage.now.hall.now crew.old.runner crew.new.runner crew.old.wires
        crew.new.wires result.1 }
    ensures stays { (crew.new.at ≡ crew.old.at) × (crew.new.places ≡ crew.old.places) }
{
    let Stage {
        alloc,
        hall,
        site,
        most,
        ..
    } = *stage;
    join_mut(
        rt,
        &mut || -> Result<Vec<PullDone>, RoundStop>
            requires { IsSync R.row × All (IsSessionOf hall.now) sessions.now ×
                (length gates.now ≡ length sessions.now) ×
                All (MayAsk hall.now.setting.opening (length sessions.now)) lines.now }
            ensures { HasPlayed hall.entry.now lines.entry.now sessions.entry.now sessions.exit.now result }
        { play(alloc, rt, hall, lines, sessions, gates) },
        &mut || -> Result<bool, Stop>
            requires { IsSync R.row × MayDrive hall.now most crew.now.runner × (1 ≤ most) × IsAt site.now crew.now ×
                (hall.now.setting.opening.table.ports ≤ length crew.now.wires) }
            ensures { IsOpening hall.entry.now most crew.entry.now.runner crew.exit.now.runner result ×
                AreServed W.faults W.runs hall.entry.now crew.entry.now.runner crew.exit.now.runner
                crew.entry.now.wires crew.exit.now.wires result ×
                (crew.exit.now.at ≡ crew.entry.now.at) × (crew.exit.now.places ≡ crew.entry.now.places) }
        { open_once(rt, hall, site, most, crew) },
    )
}

// The clients carry out the lines.
fn play<R: Threads + Wait + Sync, G: Gate + Send>(
    alloc: Global,
    rt: &R,
    hall: &Hall,
    lines: &[ScriptLine],
    sessions: &mut [Session],
    gates: &mut [G],
) -> Result<Vec<PullDone>, RoundStop>
    requires own { All (IsSessionOf hall.now) sessions.old }
    requires gates { length gates.old ≡ length sessions.old }
    requires lines { All (MayAsk hall.now.setting.opening (length sessions.old)) lines.now }
    ensures { HasPlayed hall.now lines.now sessions.old sessions.new result }
{
    round(alloc, rt, hall, sessions, lines, gates)
}

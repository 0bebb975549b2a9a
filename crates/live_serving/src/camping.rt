//! A script served by a crew whose helpers live through all of its rounds and runs.
ghost use Rattle.std.specs.Prelude.{◌≡◌, ◌≤◌, length, map};
ghost use denote.Param.Send.{IsSync};
ghost use Rattle.crews.specs.Sections.{helper_at};
ghost use Rattle.slot_runner.specs.Crews.{IsAt};
ghost use Rattle.live_serving.specs.Beside.{IsRunServed};
ghost use Rattle.live_serving.specs.Going.{IsGoing};

use crate::serving::serve;
use crate::stage::Stage;
use crate::stop::Stop;
use client_session::Session;
use crews::{Part, help_all};
use errands::Helper;
use live_rounds::{Gate, PullDone};
use outside::Wire;
use slot_runner::Crew;
use std::sync::Wait;
use std::thread::{Threads, join_mut};

/// The crew serves the script, each helper on a thread of its own. Where there is no helper, no thread is started.
pub(crate) fn serve_camp<R: Threads + Wait + Sync, W: Wire + Send, G: Gate + Send>(
    rt: &R,
    stage: &Stage<'_, W>,
    crew: &mut Crew<W>,
    sessions: &mut [Session],
    pulls: &mut Vec<PullDone>,
    gates: &mut [G],
    helpers: &mut [Helper<Part<W>>],
) -> Result<(), Stop>
    requires going { IsGoing stage.now.hall.now stage.now.script.now stage.now.most 0 crew.old.runner sessions.old
        pulls.old.items }
    requires most { 1 ≤ stage.now.most }
    requires site { IsAt stage.now.site.now crew.old }
    requires helpers { helpers.old ≡ map (helper_at stage.now.site.now.board) stage.now.site.now.trays.items }
    requires gates { length gates.old ≡ length sessions.old }
    requires wires { stage.now.hall.now.setting.opening.table.ports ≤ length crew.old.wires }
    ensures { IsRunServed W.faults W.runs stage.now.hall.now stage.now.script.now stage.now.most crew.old crew.new
        sessions.new pulls.new.items result }
{
    if helpers.is_empty() {
        return serve_all(rt, stage, crew, sessions, pulls, gates);
    }
    serve_beside(rt, stage, crew, sessions, pulls, gates, helpers)
}

// The crew serves the script beside the helpers, each on a thread of its own.
fn serve_beside<'a, R: Threads + Wait + Sync, W: Wire + Send, G: Gate + Send>(
    rt: &'a R,
    stage: &'a Stage<'a, W>,
    crew: &'a mut Crew<W>,
    sessions: &'a mut [Session],
    pulls: &'a mut Vec<PullDone>,
    gates: &'a mut [G],
    helpers: &'a mut [Helper<Part<W>>],
) -> Result<(), Stop>
    requires going { IsGoing stage.now.hall.now stage.now.script.now stage.now.most 0 crew.old.runner sessions.old
        pulls.old.items }
    requires most { 1 ≤ stage.now.most }
    requires site { IsAt stage.now.site.now crew.old }
    requires helpers { helpers.old ≡ map (helper_at stage.now.site.now.board) stage.now.site.now.trays.items }
    requires gates { length gates.old ≡ length sessions.old }
    requires wires { stage.now.hall.now.setting.opening.table.ports ≤ length crew.old.wires }
    ensures { IsRunServed W.faults W.runs stage.now.hall.now stage.now.script.now stage.now.most crew.old crew.new
        sessions.new pulls.new.items result }
{
    let board = &stage.site.board;
    let trays = stage.site.trays.as_slice();
    let (_, served) = join_mut(
        rt,
        &mut || -> ()
            requires { IsSync R.row × (helpers.now ≡ map (helper_at board.now) trays.now) }
        { help_all(rt, board, trays, helpers) },
        &mut || -> Result<(), Stop>
            requires { IsSync R.row × IsGoing stage.now.hall.now stage.now.script.now stage.now.most 0 crew.now.runner
                sessions.now pulls.now.items × (1 ≤ stage.now.most) × IsAt stage.now.site.now crew.now ×
                (length gates.now ≡ length sessions.now) ×
                (stage.now.hall.now.setting.opening.table.ports ≤ length crew.now.wires) }
            ensures { IsRunServed W.faults W.runs stage.entry.now.hall.now stage.entry.now.script.now
                stage.entry.now.most crew.entry.now crew.exit.now sessions.exit.now pulls.exit.now.items result }
        { serve_all(rt, stage, crew, sessions, pulls, gates) },
    );
    served
}

// The crew serves the script, and then its helpers end, whatever the run came to.
fn serve_all<R: Threads + Wait + Sync, W: Wire + Send, G: Gate + Send>(
    rt: &R,
    stage: &Stage<'_, W>,
    crew: &mut Crew<W>,
    sessions: &mut [Session],
    pulls: &mut Vec<PullDone>,
    gates: &mut [G],
) -> Result<(), Stop>
    requires going { IsGoing stage.now.hall.now stage.now.script.now stage.now.most 0 crew.old.runner sessions.old
        pulls.old.items }
    requires most { 1 ≤ stage.now.most }
    requires site { IsAt stage.now.site.now crew.old }
    requires gates { length gates.old ≡ length sessions.old }
    requires wires { stage.now.hall.now.setting.opening.table.ports ≤ length crew.old.wires }
    ensures { IsRunServed W.faults W.runs stage.now.hall.now stage.now.script.now stage.now.most crew.old crew.new
        sessions.new pulls.new.items result }
{
    let served = serve(rt, stage, crew, sessions, pulls, gates);
    crew.dismiss(stage.site);
    served
}

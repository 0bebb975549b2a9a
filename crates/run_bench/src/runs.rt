//! The runs that are timed, by a crew.
ghost use Rattle.std.specs.Prelude.{◌≡◌, ◌+◌, ◌≤◌, length, map, vec_capacity};
ghost use denote.Param.Send.{IsSync};
ghost use Rattle.crews.specs.Sections.{ended, helper_at};
ghost use Rattle.slot_runner.specs.Crews.{IsAt};
ghost use Rattle.slot_runner.specs.Models.{MayRun};

use crate::stop::Stop;
use client_session::Hall;
use crews::{Part, help_all};
use errands::Helper;
use outside::Wire;
use slot_runner::{Camp, Crew, Ran, Site};
use std::alloc::Global;
use std::sync::Wait;
use std::thread::{Threads, join_mut};
use std::time::{Clock, Duration, Instant};
use test_support::SmallRun;

/// The runner of a small run gets a crew of so many agents, which takes the wires and makes so many runs of one slot.
/// It answers how long the runs took. The wires come back in their order.
pub fn time_runs<R: Clock + Threads + Wait + Sync, W: Wire + Send>(
    alloc: Global,
    rt: &R,
    small: SmallRun,
    agents: u32,
    runs: u32,
    wires: &mut Vec<W>,
) -> Result<Duration, Stop>
    requires may { MayRun small.hall small.runner }
    requires agents { 1 ≤ agents }
    requires wires { small.hall.setting.opening.table.ports ≤ length wires.old.items }
{
    let SmallRun {
        hall,
        runner,
        session,
    } = small;
    let took = match runner.into_camp(alloc, agents, wires) {
        Ok(camp) => time_camp(rt, &hall, camp, runs, wires),
        Err(_runner) => Err(Stop::NoMemory),
    };
    drop(hall);
    drop(session);
    took
}

/// The crew of a camp makes so many runs, and its wires go behind those of the vector.
fn time_camp<R: Clock + Threads + Wait + Sync, W: Wire + Send>(
    rt: &R,
    hall: &Hall,
    camp: Camp<W>,
    runs: u32,
    wires: &mut Vec<W>,
) -> Result<Duration, Stop>
    requires may { MayRun hall.now camp.crew.runner }
    requires site { IsAt camp.site camp.crew }
    requires helpers { camp.helpers.items ≡ map (helper_at camp.site.board) camp.site.trays.items }
    requires many { length camp.crew.places ≡ length camp.site.trays.items }
    requires room { length wires.old.items + (camp.crew.runner.ports + length camp.far.items) ≤
        vec_capacity wires.old }
{
    let Camp {
        mut crew,
        site,
        mut helpers,
        far,
    } = camp;
    let took = run_in_camp(rt, hall, &site, &mut crew, &mut helpers, runs);
    let camp = Camp {
        crew,
        site,
        helpers,
        far,
    };
    drop(camp.disband(wires));
    took
}

/// The runs beside the helpers, each of whom attends on a thread of its own. The driver's closure stands second: it
/// runs first where no thread is to be had, attends every part itself, and lets the helpers go before they come.
fn run_in_camp<'a, R: Clock + Threads + Wait + Sync, W: Wire + Send>(
    rt: &'a R,
    hall: &'a Hall,
    site: &'a Site<W>,
    crew: &'a mut Crew<W>,
    helpers: &'a mut [Helper<Part<W>>],
    runs: u32,
) -> Result<Duration, Stop>
    requires helpers { helpers.old ≡ map (helper_at site.now.board) site.now.trays.items }
    requires may { MayRun hall.now crew.old.runner }
    requires site { IsAt site.now crew.old }
    ensures over { crew.new.places ≡ map ended crew.old.places }
    ensures ports { crew.new.runner.ports ≡ crew.old.runner.ports }
{
    if helpers.is_empty() {
        return run_all(rt, hall, site, crew, runs);
    }
    let board = &site.board;
    let trays = site.trays.as_slice();
    let (_, took) = join_mut(
        rt,
        &mut || -> ()
            requires { IsSync R.row × (helpers.now ≡ map (helper_at board.now) trays.now) }
        { help_all(rt, board, trays, helpers) },
        &mut || -> Result<Duration, Stop>
            requires { IsSync R.row × MayRun hall.now crew.now.runner × IsAt site.now crew.now }
            ensures { (crew.exit.now.places ≡ map ended crew.entry.now.places) ×
                (crew.exit.now.runner.ports ≡ crew.entry.now.runner.ports) }
        { run_all(rt, hall, site, crew, runs) },
    );
    took
}

/// The runs by the clock, and then the helpers end.
fn run_all<R: Clock + Wait, W: Wire>(
    rt: &R,
    hall: &Hall,
    site: &Site<W>,
    crew: &mut Crew<W>,
    runs: u32,
) -> Result<Duration, Stop>
    requires may { MayRun hall.now crew.old.runner }
    requires site { IsAt site.now crew.old }
    ensures over { crew.new.places ≡ map ended crew.old.places }
    ensures ports { crew.new.runner.ports ≡ crew.old.runner.ports }
{
    let took = run_by_clock(rt, hall, site, crew, runs);
    crew.dismiss(site);
    took
}

/// Makes the runs. It answers how long they took.
fn run_by_clock<R: Clock + Wait, W: Wire>(
    rt: &R,
    hall: &Hall,
    site: &Site<W>,
    crew: &mut Crew<W>,
    runs: u32,
) -> Result<Duration, Stop>
    requires may { MayRun hall.now crew.old.runner }
    requires site { IsAt site.now crew.old }
    ensures site { IsAt site.now crew.new }
    ensures places { crew.new.places ≡ crew.old.places }
    ensures ports { crew.new.runner.ports ≡ crew.old.runner.ports }
{
    let start = Instant::now(rt)?;
    run_many(rt, hall, site, crew, runs)?;
    Ok(start.elapsed(rt)?)
}

/// Makes so many runs of one slot. Each is to send a unit from each granted port.
fn run_many<R: Wait, W: Wire>(
    rt: &R,
    hall: &Hall,
    site: &Site<W>,
    crew: &mut Crew<W>,
    runs: u32,
) -> Result<(), Ran>
    requires may { MayRun hall.now crew.old.runner }
    requires site { IsAt site.now crew.old }
    ensures site { IsAt site.now crew.new }
    ensures places { crew.new.places ≡ crew.old.places }
    ensures ports { crew.new.runner.ports ≡ crew.old.runner.ports }
{
    for made in 0..runs {
        let ran = crew.slot(rt, hall, site, 1);
        let Ran::Ran { .. } = ran else {
            return Err(ran);
        };
    }
    Ok(())
}

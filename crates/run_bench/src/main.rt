//! Measures a crew: all coflows of a trace join and are ordered, and then a crew makes runs of one slot on wires that
//! count units. Its arguments are the file of a trace, whose units are megabytes, how many agents the crew has, and how
//! many runs are made.
//!
//! It prints how many runs were made, and how many units the wires accepted. With a further word `time` it prints how
//! many nanoseconds the runs took, and with one more how many microseconds a wire waits with each send; without it no
//! wire waits.
//!
//! The exit code is 0 where all runs were made, and 1 where something was wanting.
#![tactic(auto)]

mod game;
mod runs;
mod stop;
mod wait_wire;

ghost use Rattle.std.specs.Prelude.{◌≡◌, ◌≤◌, IfSome, length};

use crate::game::{Game, game_of};
use crate::runs::time_runs;
use crate::stop::Stop;
use crate::wait_wire::WaitWire;
use flow_table::Table;
use std::alloc::Global;
use std::process::ExitCode;
use std::rt::Runtime;
use std::sync::Wait;
use std::thread::Threads;
use std::time::{Clock, Duration};
use test_support::SmallRun;

fn main(rt: HostRuntime) -> ExitCode {
    let ended = match game_of(&rt) {
        Ok(game) => run(&rt, rt.alloc(), game),
        Err(stop) => Err(stop),
    };
    match ended {
        Ok(()) => ExitCode::from(0),
        Err(stop) => {
            // A line that cannot be written changes nothing.
            let _ = eprintln!(rt; "run_bench: {stop}");
            ExitCode::from(1)
        }
    }
}

/// Makes the runs, and prints what was asked.
fn run<R: Runtime + Threads + Wait + Sync>(rt: &R, alloc: Global, game: Game) -> Result<(), Stop>
    requires agents { 1 ≤ game.agents }
    requires runs { game.runs ≤ 1000000 }
{
    let Game {
        table,
        agents,
        runs,
        timed,
        wait,
    } = game;
    let Some(mut wires) = wires_waiting(alloc, rt, table.ports(), wait) else {
        drop(table);
        return Err(Stop::NoMemory);
    };
    let measured = measured(rt, alloc, table, agents, runs, &mut wires);
    let units = sent_on(&wires);
    drop(wires);
    let took = measured?;
    if timed {
        println!(rt; "nanoseconds {}", took.as_nanos())?;
    } else {
        println!(rt; "runs {runs} units {units}")?;
    }
    Ok(())
}

/// Makes the runs in a hall of the table's coflows. It answers how long they took.
fn measured<R: Runtime + Threads + Wait + Sync>(
    rt: &R,
    alloc: Global,
    table: Table,
    agents: u32,
    runs: u32,
    wires: &mut Vec<WaitWire<'_, R>>,
) -> Result<Duration, Stop>
    requires agents { 1 ≤ agents }
    requires runs { runs ≤ 1000000 }
    requires wires { table.ports ≤ length wires.old.items }
{
    let (limit, calls) = (2 * runs + table.coflows() + 2, 2 * runs + table.ports());
    let small = SmallRun::of_table(rt, alloc, table, limit, calls)?;
    time_runs(alloc, rt, small, agents, runs, wires)
}

/// So many wires, each of which waits so long with each send. None means that memory was wanting.
fn wires_waiting<'a, R: Clock>(
    alloc: Global,
    clock: &'a R,
    count: u32,
    wait: Duration,
) -> Option<Vec<WaitWire<'a, R>>>
    ensures { IfSome result (λ wires. length wires.items ≡ count) }
{
    let Ok(mut wires) = Vec::with_capacity(alloc, count as usize) else {
        return None;
    };
    for made in 0..count {
        wires.push_reserved(WaitWire::new(clock, wait));
    }
    Some(wires)
}

/// How many units the wires accepted. The number stays at 2^64 - 1 once it is there.
fn sent_on<R: Clock>(wires: &[WaitWire<'_, R>]) -> u64 {
    let mut units = 0u64;
    for wire in wires {
        units = units.saturating_add(wire.sent());
    }
    units
}

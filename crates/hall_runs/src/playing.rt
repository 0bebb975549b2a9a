//! Games from their words to what is printed.
ghost use denote.Param.Send.{IsSync};
ghost use Rattle.std.specs.Prelude.{◌≡◌, ◌≤◌, All, IfOk, length};
ghost use Rattle.client_session.specs.Models.{IsDriverOf, IsSessionOf};
ghost use Rattle.hall_runs.specs.Callers.{IsClientOf, IsPilotOf};
ghost use Rattle.hall_runs.specs.declared.callers.TheConstants.{MAX_EACH};

use crate::callers::{Client, Pilot, Size, play_all};
use crate::closing::closed;
use crate::game::{Game, Mode, game_of};
use crate::locked::contend;
use crate::seats::{begun, master_of, seated};
use crate::stop::Stop;
use crate::telling::{tell_end, tell_said};
use client_session::Hall;
use flow_table::Table;
use outside::Shelf;
use std::alloc::Global;
use std::io;
use std::rt::Runtime;
use std::sync::Wait;
use std::thread::{Threads, join_mut};
use std::time::{Duration, Instant};

/// Plays what the words ask for: `hall_runs TRACE SEED COMMANDS`, and then `tell`, `time` or `mutex`, or no more. The
/// trace stands on the shelf.
pub fn play_words<R: Runtime + Threads + Wait + Sync, H: Shelf>(
    rt: &R,
    alloc: Global,
    shelf: &mut H,
    words: &[String],
) -> Result<(), Stop> {
    let game = game_of(alloc, shelf, words)?;
    run(rt, alloc, game)
}

/// Plays it.
fn run<R: Runtime + Threads + Wait + Sync>(rt: &R, alloc: Global, game: Game) -> Result<(), Stop>
    requires few { game.commands ≤ MAX_EACH }
{
    let Game {
        table,
        seed,
        commands,
        mode,
    } = game;
    let size = match size_of(&table, commands) {
        Ok(size) => size,
        Err(stop) => {
            drop(table);
            return Err(stop);
        }
    };
    match mode {
        Mode::Mutex => contend(rt, alloc, master_of(alloc, table, commands)?, seed, size),
        _ => play(rt, alloc, table, seed, size, mode),
    }
}

/// Plays a hall, and closes it.
fn play<R: Runtime + Threads + Wait + Sync>(
    rt: &R,
    alloc: Global,
    table: Table,
    seed: u32,
    size: Size,
    mode: Mode,
) -> Result<(), Stop>
    requires few { size.commands ≤ MAX_EACH }
    requires coflows { (size.coflows ≡ length table.ids) × (1 ≤ size.coflows) }
    requires ports { (size.ports ≡ table.ports) × (1 ≤ size.ports) }
{
    let (hall, driver) = begun(alloc, table, size)?;
    let Ok((pilot, clients)) = seated(alloc, &hall, driver, seed, size) else {
        drop(hall);
        return Err(Stop::NoMemory);
    };
    host(rt, alloc, hall, pilot, clients, size, mode)
}

/// Lets the callers of a hall ask, and closes it.
fn host<R: Runtime + Threads + Wait + Sync>(
    rt: &R,
    alloc: Global,
    hall: Hall,
    mut pilot: Pilot,
    mut clients: Vec<Client>,
    size: Size,
    mode: Mode,
) -> Result<(), Stop>
    requires pilot { IsPilotOf hall size.commands pilot }
    requires clients { All (IsClientOf hall size.commands) clients.items }
    requires some { (1 ≤ size.coflows) × (1 ≤ size.ports) }
    requires coflows { size.coflows ≡ length hall.setting.opening.table.ids }
    requires ports { size.ports ≡ hall.setting.opening.table.ports }
{
    let took = asked(rt, &hall, &mut pilot, &mut clients, size, mode);
    let master = closed(alloc, hall, pilot.into_driver(), clients)?;
    let told = tell_end(rt, &master, size, mode, took);
    drop(master);
    told
}

/// The driver and the clients ask their commands, and what they were told is printed where the mode asks for it. It
/// answers how long the asking took.
fn asked<R: Runtime + Threads + Wait + Sync>(
    rt: &R,
    hall: &Hall,
    pilot: &mut Pilot,
    clients: &mut [Client],
    size: Size,
    mode: Mode,
) -> io::Result<Duration>
    requires pilot { IsPilotOf hall.now size.commands pilot.old }
    requires clients { All (IsClientOf hall.now size.commands) clients.old }
    requires some { (1 ≤ size.coflows) × (1 ≤ size.ports) }
    requires coflows { size.coflows ≡ length hall.now.setting.opening.table.ids }
    requires ports { size.ports ≡ hall.now.setting.opening.table.ports }
    ensures pilot { IsDriverOf hall.entry.now pilot.new.driver }
    ensures clients { All (λ c. IsSessionOf hall.entry.now c.session) clients.new }
{
    let took = timed(rt, hall, pilot, clients, size)?;
    if mode == Mode::Tell {
        tell_said(rt, &pilot.said, clients)?;
    }
    Ok(took)
}

/// The driver and the clients ask their commands. It answers how long that took.
fn timed<R: Runtime + Threads + Wait + Sync>(
    rt: &R,
    hall: &Hall,
    pilot: &mut Pilot,
    clients: &mut [Client],
    size: Size,
) -> io::Result<Duration>
    requires pilot { IsPilotOf hall.now size.commands pilot.old }
    requires clients { All (IsClientOf hall.now size.commands) clients.old }
    requires some { (1 ≤ size.coflows) × (1 ≤ size.ports) }
    requires coflows { size.coflows ≡ length hall.now.setting.opening.table.ids }
    requires ports { size.ports ≡ hall.now.setting.opening.table.ports }
    ensures pilot { IsDriverOf hall.entry.now pilot.new.driver }
    ensures clients { All (λ c. IsSessionOf hall.entry.now c.session) clients.new }
{
    let start = Instant::now(rt);
    play_both(rt, hall, pilot, clients, size);
    start?.elapsed(rt)
}

/// The size of a game over a table that has a coflow and a port.
fn size_of(table: &Table, commands: u32) -> Result<Size, Stop>
    ensures commands { IfOk result (λ size. size.commands ≡ commands) }
    ensures coflows { IfOk result (λ size. (size.coflows ≡ length table.now.ids) × (1 ≤ size.coflows)) }
    ensures ports { IfOk result (λ size. (size.ports ≡ table.now.ports) × (1 ≤ size.ports)) }
{
    let size = Size {
        commands,
        coflows: table.coflows(),
        ports: table.ports(),
    };
    if size.coflows < 1 {
        return Err(Stop::Table);
    }
    if size.ports < 1 {
        return Err(Stop::Table);
    }
    Ok(size)
}

/// The driver and the clients ask their commands.
fn play_both<R: Threads + Wait + Sync>(
    rt: &R,
    hall: &Hall,
    pilot: &mut Pilot,
    clients: &mut [Client],
    size: Size,
)
    requires pilot { IsPilotOf hall.now size.commands pilot.old }
    requires clients { All (IsClientOf hall.now size.commands) clients.old }
    requires some { (1 ≤ size.coflows) × (1 ≤ size.ports) }
    requires coflows { size.coflows ≡ length hall.now.setting.opening.table.ids }
    requires ports { size.ports ≡ hall.now.setting.opening.table.ports }
    ensures pilot { IsDriverOf hall.entry.now pilot.new.driver }
    ensures clients { All (λ c. IsSessionOf hall.entry.now c.session) clients.new }
{
    join_mut(
        rt,
        &mut || -> ()
            requires { IsPilotOf hall.now size.commands pilot.now × (1 ≤ size.coflows) × (1 ≤ size.ports) ×
                (size.coflows ≡ length hall.now.setting.opening.table.ids) ×
                (size.ports ≡ hall.now.setting.opening.table.ports) }
            ensures { IsDriverOf hall.entry.now pilot.exit.now.driver }
        { pilot.play(rt, hall, size) },
        &mut || -> ()
            requires { IsSync R.row × All (IsClientOf hall.now size.commands) clients.now × (1 ≤ size.coflows) ×
                (size.coflows ≡ length hall.now.setting.opening.table.ids) }
            ensures { All (λ c. IsSessionOf hall.entry.now c.session) clients.exit.now }
        { play_all(rt, hall, clients, size) },
    );
}

//! The same commands, asked of a master behind a mutex. It tells how fast a hall is beside one.
ghost use Rattle.std.specs.Prelude.{◌≤◌};
ghost use Rattle.hall_runs.specs.Locked.{HasAsked, HaveAsked};

use crate::callers::Size;
use crate::draw::{Ask, Draw, Order};
use crate::seats::CLIENTS;
use crate::stop::Stop;
use coflow_units::NoMemory;
use master_core::{Command, Master};
use std::alloc::Global;
use std::rt::Runtime;
use std::sync::{Mutex, Wait};
use std::thread::Threads;
use std::time::{Duration, Instant};
use std::{io, thread};

/// A caller: the driver where its number is 0, and else a client.
#[derive(Drop)]
pub struct Caller {
    pub number: u32,
    pub draw: Draw,
    /// How many of its commands were carried out.
    pub answered: u32,
}

/// Asks the commands of a master behind a mutex, and prints how long it took.
pub fn contend<R: Runtime + Threads + Wait + Sync>(
    rt: &R,
    alloc: Global,
    master: Master,
    seed: u32,
    size: Size,
) -> Result<(), Stop>
    requires some { (1 ≤ size.coflows) × (1 ≤ size.ports) }
{
    let Ok(mut callers) = callers_of(alloc, seed) else {
        drop(master);
        return Err(Stop::NoMemory);
    };
    let took = timed(rt, master, &mut callers, size);
    let answered = have_answers(&callers, size.commands);
    drop(callers);
    let took = took?;
    if answered {
        return Ok(println!(rt; "nanoseconds {}", took.as_nanos())?);
    }
    Err(Stop::Missing)
}

/// The driver and the clients, which draw from the seed.
fn callers_of(alloc: Global, seed: u32) -> Result<Vec<Caller>, NoMemory> {
    let mut callers = Vec::new(alloc);
    for number in 0..CLIENTS + 1 {
        callers.push(Caller {
            number,
            draw: Draw::of(seed, number),
            answered: 0,
        })?;
    }
    Ok(callers)
}

/// How long the callers take.
fn timed<R: Runtime + Threads + Wait + Sync>(
    rt: &R,
    master: Master,
    callers: &mut [Caller],
    size: Size,
) -> io::Result<Duration>
    requires some { (1 ≤ size.coflows) × (1 ≤ size.ports) }
{
    let locked = Mutex::new(master);
    let start = Instant::now(rt);
    lock_all(rt, &locked, callers, size);
    let took = elapsed(rt, start);
    drop(locked);
    took
}

/// How long it is since the start.
fn elapsed<R: Runtime>(rt: &R, start: io::Result<Instant>) -> io::Result<Duration> {
    start?.elapsed(rt)
}

/// Whether each caller had so many commands carried out.
fn have_answers(callers: &[Caller], commands: u32) -> bool {
    callers.iter().all(|caller| caller.answered == commands)
}

/// Each caller asks its commands, on a thread of its own.
fn lock_all<R: Threads + Wait + Sync>(
    rt: &R,
    master: &Mutex<Master>,
    callers: &mut [Caller],
    size: Size,
)
    requires some { (1 ≤ size.coflows) × (1 ≤ size.ports) }
    ensures asked { HaveAsked size.commands callers.old callers.new }
{
    let threads = callers.len();
    if threads > 0 {
        thread::for_each_mut(
            rt,
            callers,
            threads,
            &|_, caller| { lock_many(rt, master, caller, size) },
        );
    }
}

/// Asks drawn commands.
fn lock_many<R: Wait>(rt: &R, master: &Mutex<Master>, caller: &mut Caller, size: Size)
    requires some { (1 ≤ size.coflows) × (1 ≤ size.ports) }
    ensures asked { HasAsked size.commands caller.old caller.new }
{
    for turn in 0..size.commands {
        let done = if caller.number == 0 {
            let command = command_of(caller.draw.order(size.coflows, size.ports));
            stepped(&mut master.lock(rt), 0, command)
        } else {
            let ask = caller.draw.ask(size.coflows);
            asked(&mut master.lock(rt), caller.number, ask)
        };
        if done {
            caller.answered = caller.answered.saturating_add(1);
        }
    }
}

/// Carries out a client's ask. A pull reads the rank, and adds no entry.
fn asked(master: &mut Master, who: u32, ask: Ask) -> bool {
    let command = match ask {
        Ask::Register(coflow) => Command::Register(coflow),
        Ask::Withdraw(coflow) => Command::Withdraw(coflow),
        Ask::Publish => Command::Publish,
        Ask::PullTurn(coflow) => Command::Pull(coflow),
        Ask::Reweigh(coflow, weight) => Command::Reweigh { coflow, weight },
        Ask::Pull(coflow) => {
            return match master.ranks().get(coflow as usize) {
                Some(rank) => *rank <= coflow || *rank > coflow,
                None => false,
            };
        }
    };
    stepped(master, who, command)
}

/// Carries out a command that is in range.
fn stepped(master: &mut Master, who: u32, command: Command) -> bool {
    if !master.is_in_range(command) {
        return false;
    }
    master.step(who, command);
    true
}

/// The command of an order.
fn command_of(order: Order) -> Command {
    match order {
        Order::Open(most) => Command::Open(most),
        Order::Short(port, sent) => Command::Short(port, sent),
        Order::Close => Command::Close,
        Order::Skip(to) => Command::Skip(to),
        Order::Register(coflow) => Command::Register(coflow),
        Order::Withdraw(coflow) => Command::Withdraw(coflow),
        Order::Publish => Command::Publish,
    }
}

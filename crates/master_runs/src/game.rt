//! Masters and worlds that play the lines of a list.
ghost use Rattle.std.specs.Prelude.{◌≡◌};

use crate::fault::ListFault;
use crate::line::{Said, said_of};
use crate::stop::Stop;
use crate::telling::{tell_closed, tell_journal, tell_master, tell_sent, tell_world};
use coflow_units::NoMemory;
use journal::RunTally;
use master_core::{Command, Master};
use std::alloc::Global;
use std::io;
use text_fields::{Fields, Lines};
use world_model::{Event, World};

/// A master answers the commands of the lines.
pub fn play_master(
    rt: &HostRuntime,
    alloc: Global,
    master: &mut Master,
    lines: &mut Lines<'_>,
) -> Result<(), Stop>
    ensures opening { master.new.opening ≡ master.old.opening }
{
    let mut tally = RunTally::new(alloc);
    let played = play_lines(rt, alloc, master, &mut tally, lines);
    drop(tally);
    played
}

/// A master answers the commands of the lines, and the tally takes them down. Then what they tell is printed.
fn play_lines(
    rt: &HostRuntime,
    alloc: Global,
    master: &mut Master,
    tally: &mut RunTally,
    lines: &mut Lines<'_>,
) -> Result<(), Stop>
    ensures opening { master.new.opening ≡ master.old.opening }
{
    while let Some(mut fields) = lines.next() {
        play_line(rt, alloc, master, tally, &mut fields)?;
    }
    Ok(tell_played(rt, master, tally)?)
}

/// Prints what a master and its tally tell.
fn tell_played(rt: &HostRuntime, master: &Master, tally: &RunTally) -> io::Result<()> {
    tell_master(rt, master)?;
    tell_closed(rt, tally.closed())?;
    tell_journal(rt, master)
}

/// A master answers what a line says, and the tally takes it down.
fn play_line(
    rt: &HostRuntime,
    alloc: Global,
    master: &mut Master,
    tally: &mut RunTally,
    fields: &mut Fields<'_>,
) -> Result<(), Stop>
    ensures opening { master.new.opening ≡ master.old.opening }
{
    let line = fields.line();
    let said = said_of(fields)?;
    let entries = master.journal().len();
    answer(rt, master, line, said)?;
    Ok(take_down(alloc, tally, master, entries)?)
}

/// The tally takes down the entry of the journal at this place, where there is one.
fn take_down(
    alloc: Global,
    tally: &mut RunTally,
    master: &Master,
    place: usize,
) -> Result<(), NoMemory> {
    match master.journal().get(place) {
        Some(entry) => tally.take(
            alloc,
            *entry,
            master.table().flows(),
            master.granted_flows(),
        ),
        None => Ok(()),
    }
}

/// A master answers what the line with this number says.
fn answer(rt: &HostRuntime, master: &mut Master, line: u32, said: Said) -> Result<(), Stop>
    ensures opening { master.new.opening ≡ master.old.opening }
{
    match said {
        Said::Tell => Ok(tell_master(rt, master)?),
        Said::Step(Event::Ask { who, command }) => Ok(ask(rt, master, who, command)?),
        Said::Step(_) => Err(Stop::List(ListFault::Line(line))),
    }
}

/// Asks a command that is in range, and prints the reply.
fn ask(rt: &HostRuntime, master: &mut Master, who: u32, command: Command) -> io::Result<()>
    ensures opening { master.new.opening ≡ master.old.opening }
{
    if !master.is_in_range(command) {
        return println!(rt; "out of range");
    }
    let reply = master.step(who, command);
    println!(rt; "{reply:?}")
}

/// A world takes the steps of the lines.
pub(crate) fn play_world(
    rt: &HostRuntime,
    world: &mut World,
    lines: &mut Lines<'_>,
) -> Result<(), Stop> {
    while let Some(mut fields) = lines.next() {
        let said = said_of(&mut fields)?;
        take(rt, world, said)?;
    }
    Ok(tell_end(rt, world)?)
}

/// A world does what a line says.
fn take(rt: &HostRuntime, world: &mut World, said: Said) -> io::Result<()> {
    match said {
        Said::Tell => tell_world(rt, world),
        Said::Step(event) => {
            let happened = world.step(event);
            println!(rt; "{happened:?}")
        }
    }
}

/// Prints all that a world tells.
fn tell_end(rt: &HostRuntime, world: &World) -> io::Result<()> {
    tell_world(rt, world)?;
    tell_journal(rt, world.master())?;
    tell_sent(rt, world)
}

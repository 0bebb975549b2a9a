//! Plays a list of commands to a master, or a list of steps to a world of interleavings. Prints each answer, and behind
//! the last one what is told. Its arguments are the file of a trace, whose units are megabytes, and the file of the
//! list.
//!
//! The first line of the list says who plays, with a weight for each coflow of the trace: `master LIMIT WEIGHT..` is a
//! master whose journal takes entries up to the limit, and `world LIMIT WEIGHT.. AGENTS` is a world of such a master
//! and of so many agents. A line `CALLER WORD NUMBER..` behind it asks a command, and in a world a line `WORD NUMBER..`
//! is a step of an agent or of the driver of runs. A line `tell` prints what is told at that point. Behind the last
//! line a master also tells its closed runs, each with what it credits to its flows.
//!
//! The exit code is 0 where all lines were played, and 1 where a line is not such, or something else was wanting.
#![tactic(auto)]

mod fault;
mod game;
mod line;
mod setting;
mod stop;
mod telling;

ghost use Rattle.std.specs.Prelude.{◌≡◌, ◌≤◌, [], All, IfOk, length, vec_len};
ghost use Rattle.master_runs.specs.declared.setting.TheConstants.{MAX_LIMIT};
ghost use Rattle.coflow_units.specs.declared.limits.TheConstants.{MAX_TEXT, MAX_WEIGHT};

use crate::fault::ListFault;
use crate::game::{play_master, play_world};
use crate::line::{index, word};
use crate::setting::{Setting, setting_of};
use crate::stop::Stop;
use coflow_units::{Items, NoMemory, UnitSize};
use flow_table::Table;
use master_core::Master;
use outside::{DiskShelf, Place4, Shelf};
use std::alloc::Global;
use std::env;
use std::process::ExitCode;
use test_support::{bytes_of_file, table_of_file};
use text_fields::{Fields, Lines};
use world_model::World;

fn main(rt: HostRuntime) -> ExitCode {
    match run(&rt) {
        Ok(()) => ExitCode::from(0),
        Err(stop) => {
            // A line that cannot be written changes nothing.
            let _ = eprintln!(rt; "master_runs: {stop}");
            ExitCode::from(1)
        }
    }
}

/// Plays what the words ask for.
fn run(rt: &HostRuntime) -> Result<(), Stop> {
    let alloc = rt.alloc();
    let Ok(words) = env::args(rt) else {
        return Err(Stop::Usage);
    };
    let Ok(words) = words.collect::<Vec<String>>(alloc) else {
        return Err(Stop::NoMemory);
    };
    let files = files_of(alloc, &mut DiskShelf::new(*rt), &words);
    drop(words);
    let (text, table) = files?;
    let played = play(rt, alloc, table, &mut Lines::new(&text));
    drop(text);
    played
}

/// The bytes of the list, and the table of the trace, whose files the words name.
fn files_of<H: Shelf>(
    alloc: Global,
    shelf: &mut H,
    words: &[String],
) -> Result<(Vec<u8>, Table), Stop>
    ensures { IfOk result (λ files. vec_len files.0 ≤ MAX_TEXT) }
{
    let Some(trace) = words.get(1) else {
        return Err(Stop::Usage);
    };
    let Some(list) = words.get(2) else {
        return Err(Stop::Usage);
    };
    let text = bytes_of_file(alloc, shelf, Place4::Script, list)?;
    let table = table_of_file(alloc, shelf, trace, UnitSize::MEGABYTE)?;
    Ok((text, table))
}

/// Plays the lines, the first of which says who plays.
fn play(rt: &HostRuntime, alloc: Global, table: Table, lines: &mut Lines<'_>) -> Result<(), Stop> {
    let Some(mut first) = lines.next() else {
        drop(table);
        return Err(Stop::List(ListFault::Line(1)));
    };
    match word(&mut first) {
        "master" => with_master(rt, alloc, table, &mut first, lines),
        "world" => with_world(rt, alloc, table, &mut first, lines),
        _ => {
            drop(table);
            Err(Stop::List(ListFault::Line(1)))
        }
    }
}

/// A master plays the lines behind the first one, whose next fields are these.
fn with_master(
    rt: &HostRuntime,
    alloc: Global,
    table: Table,
    fields: &mut Fields<'_>,
    lines: &mut Lines<'_>,
) -> Result<(), Stop> {
    let mut master = master_of(alloc, table, fields)?;
    let played = play_master(rt, alloc, &mut master, lines);
    drop(master);
    played
}

/// A world plays the lines behind the first one, whose next fields are these.
fn with_world(
    rt: &HostRuntime,
    alloc: Global,
    table: Table,
    fields: &mut Fields<'_>,
    lines: &mut Lines<'_>,
) -> Result<(), Stop> {
    let mut world = world_of(alloc, table, fields)?;
    let played = play_world(rt, &mut world, lines);
    drop(world);
    played
}

/// A new world of the master that comes next, and of the agents behind it.
fn world_of(alloc: Global, table: Table, fields: &mut Fields<'_>) -> Result<World, Stop> {
    let setting = match setting_of(alloc, table.coflows(), fields) {
        Ok(setting) => setting,
        Err(fault) => {
            drop(table);
            return Err(Stop::List(fault));
        }
    };
    let Some(agents) = index(fields) else {
        drop(setting);
        drop(table);
        return Err(Stop::List(ListFault::Line(1)));
    };
    let master = master_with(alloc, table, setting)?;
    Ok(World::new(alloc, master, agents)?)
}

/// A master of the table with the limit and the weights that come next.
fn master_of(alloc: Global, table: Table, fields: &mut Fields<'_>) -> Result<Master, Stop> {
    let setting = match setting_of(alloc, table.coflows(), fields) {
        Ok(setting) => setting,
        Err(fault) => {
            drop(table);
            return Err(Stop::List(fault));
        }
    };
    Ok(master_with(alloc, table, setting)?)
}

/// A master of the table with this limit and these weights.
fn master_with(alloc: Global, table: Table, setting: Setting) -> Result<Master, NoMemory>
    requires limit { (1 ≤ setting.limit) × (setting.limit ≤ MAX_LIMIT) }
    requires count { vec_len setting.weights ≡ length table.ids }
    requires weights { All (λ w. (1 ≤ w) × (w ≤ MAX_WEIGHT)) setting.weights.items }
    ensures { IfOk result (λ m. m.journal ≡ []) }
{
    let Setting { limit, weights } = setting;
    Master::new(alloc, table, Items::from_vec(weights), limit)
}

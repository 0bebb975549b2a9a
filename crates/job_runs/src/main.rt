//! Carries out commands by the library's one call, over files, a sink, wires and gates in memory, row by row, and
//! prints what comes of each. Its argument is the file of the rows.
//!
//! The first line of the file names the columns, which stand in each line below: the file of the trace, which is `t` to
//! the command, and the one beside it, which is `s`; how many bytes a read gives at most, and which call for a file
//! fails, counted from 1; how many bytes the sink takes, where that is a number; which unit the wires of ports 0 and 1
//! do not accept, counted from 1; who waits for one another, with two numbers of lines; which rankers are on the bench;
//! whether the text and the wires are told; and the words of the command.
//!
//! For each row it prints the number of its line and the status, the text that the sink took and what each wire
//! accepted, where these are told, whether the gates of the first two clients were passed where they wait and met the
//! other one there, whether a wire gave up, and how many rankers are left on the bench. Then it plans two traces on a
//! shelf that never fails, one of them with a byte more than a text may have.
//!
//! The exit code is 0 where all rows were carried out, and 1 where a row is not such, or something else was wanting.
#![tactic(auto)]

mod carrying;
mod fault;
mod gates;
mod job;
mod meeting;
mod row;
mod stage;
mod stop;
mod stutter;
mod sure;
mod telling;
mod wires;

ghost use Rattle.std.specs.Prelude.{◌≤◌, IfOk, length};
ghost use Rattle.coflow_units.specs.declared.limits.TheConstants.{MAX_TEXT};

use crate::carrying::carry_job;
use crate::job::job_of;
use crate::row::{Row, row_of, words_of};
use crate::stop::Stop;
use crate::sure::{SureEnd, sure_plan};
use coflow_units::MAX_TEXT;
use outside::{DiskShelf, Place4, Shelf};
use std::alloc::Global;
use std::env;
use std::process::ExitCode;
use std::rt::Runtime;
use std::sync::Wait;
use std::thread::Threads;
use test_support::bytes_of_file;
use text_fields::{Fields, Lines};

/// Two coflows that share both ports, of 3 units and of 1 unit.
const TWO: &[u8] = b"2 2\n1 0 1 0 1 1:3\n2 0 1 0 1 1:1\n";

fn main(rt: HostRuntime) -> ExitCode {
    let mut shelf = DiskShelf::new(rt);
    let carried = match rows_of(&rt, &mut shelf) {
        Ok(rows) => carry_all(&rt, rt.alloc(), &mut shelf, &rows),
        Err(stop) => Err(stop),
    };
    match carried {
        Ok(()) => ExitCode::from(0),
        Err(stop) => {
            // A line that cannot be written changes nothing.
            let _ = eprintln!(rt; "job_runs: {stop}");
            ExitCode::from(1)
        }
    }
}

/// The bytes of the file that the words name.
fn rows_of<H: Shelf>(rt: &HostRuntime, shelf: &mut H) -> Result<Vec<u8>, Stop>
    ensures { IfOk result (λ rows. length rows.items ≤ MAX_TEXT) }
{
    let Ok(words) = env::args(rt) else {
        return Err(Stop::Usage);
    };
    let Ok(words) = words.collect::<Vec<String>>(rt.alloc()) else {
        return Err(Stop::NoMemory);
    };
    let rows = match words.get(1) {
        Some(name) => bytes_of_file(rt.alloc(), shelf, Place4::Trace, name),
        None => {
            drop(words);
            return Err(Stop::Usage);
        }
    };
    drop(words);
    Ok(rows?)
}

/// Carries out the rows, and plans two traces on a shelf that never fails.
fn carry_all<R: Runtime + Threads + Wait + Sync, H: Shelf>(
    rt: &R,
    alloc: Global,
    shelf: &mut H,
    rows: &[u8],
) -> Result<(), Stop>
    requires { length rows.now ≤ MAX_TEXT }
{
    carry_rows(rt, alloc, shelf, rows)?;
    tell_sure(rt, sure_plan(rt, alloc, TWO)?)?;
    let Ok(long) = vec![in alloc; 0u8; MAX_TEXT as usize + 1] else {
        return Err(Stop::NoMemory);
    };
    let end = sure_plan(rt, alloc, &long);
    drop(long);
    tell_sure(rt, end?)
}

/// Prints how a plan ended on a shelf that never fails.
fn tell_sure(rt: &impl Print, end: SureEnd) -> Result<(), Stop> {
    let SureEnd { status, written } = end;
    match println!(rt; "sure: {status:?}, {written} bytes written") {
        Ok(()) => Ok(()),
        Err(_) => Err(Stop::Output),
    }
}

/// Carries out the rows of the lines behind the first one.
fn carry_rows<R: Runtime + Threads + Wait + Sync, H: Shelf>(
    rt: &R,
    alloc: Global,
    shelf: &mut H,
    rows: &[u8],
) -> Result<(), Stop>
    requires { length rows.now ≤ MAX_TEXT }
{
    let mut lines = Lines::new(rows);
    let _columns = lines.next();
    while let Some(mut fields) = lines.next() {
        carry_line(rt, alloc, shelf, &mut fields)?;
    }
    Ok(())
}

/// Carries out the row of a line.
fn carry_line<R: Runtime + Threads + Wait + Sync, H: Shelf>(
    rt: &R,
    alloc: Global,
    shelf: &mut H,
    fields: &mut Fields<'_>,
) -> Result<(), Stop> {
    let line = fields.line();
    let Some(row) = row_of(fields) else {
        return Err(Stop::Line(line));
    };
    let Some(words) = words_of(alloc, fields) else {
        return Err(Stop::NoMemory);
    };
    let carried = carry_row(rt, alloc, shelf, (line, row), &words);
    drop(words);
    carried
}

/// Carries out the row with these words of its command. With it stands the number of its line.
fn carry_row<R: Runtime + Threads + Wait + Sync, H: Shelf>(
    rt: &R,
    alloc: Global,
    shelf: &mut H,
    row: (u32, Row<'_>),
    words: &[String],
) -> Result<(), Stop> {
    let mut job = job_of(alloc, shelf, row.1)?;
    let carried = carry_job(rt, alloc, row, words, &mut job);
    drop(job);
    Ok(carried?)
}

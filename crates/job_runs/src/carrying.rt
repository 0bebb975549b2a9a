//! Carrying out a row.
ghost use Rattle.std.specs.Prelude.{◌≤◌, length};

use crate::fault::JobFault;
use crate::job::SmallJob;
use crate::meeting::Pair;
use crate::row::{Bench, Row};
use crate::stage::{Stage, stage_of};
use crate::stutter::Stutter;
use crate::telling::tell;
use coflow_units::MAX_COFLOWS;
use rankers::{Attained, Fifo, Ranker};
use sincronia_cli::sincronia;
use std::alloc::Global;
use std::rt::Runtime;
use std::sync::Wait;
use std::thread::Threads;

/// Carries out the command of a row with these words, the program's name first, and prints what comes of it. With the
/// row stands the number of its line, which is printed too.
///
/// The error is want of memory, or that nothing more is printed.
pub fn carry_job<R: Runtime + Threads + Wait + Sync>(
    rt: &R,
    alloc: Global,
    row: (u32, Row<'_>),
    words: &[String],
    job: &mut SmallJob,
) -> Result<(), JobFault> {
    let mut bench: Vec<Box<dyn Ranker>> = Vec::new(alloc);
    match row.1.bench {
        Bench::Empty => (),
        Bench::Attained => {
            let attained = Attained::new(alloc, MAX_COFLOWS)?;
            bench.push(Box::new(alloc, attained)?)?;
        }
        Bench::Stutter => {
            bench.push(Box::new(alloc, Stutter)?)?;
            bench.push(Box::new(alloc, Fifo)?)?;
        }
    }
    let carried = carry_with(rt, alloc, row, words, job, &mut bench);
    let left = bench.len();
    drop(bench);
    carried?;
    Ok(println!(rt; "rankers left {left}")?)
}

/// Carries out the command with the rankers of the row.
fn carry_with<R: Runtime + Threads + Wait + Sync>(
    rt: &R,
    alloc: Global,
    row: (u32, Row<'_>),
    words: &[String],
    job: &mut SmallJob,
    bench: &mut Vec<Box<dyn Ranker>>,
) -> Result<(), JobFault>
    requires few { length bench.old.items ≤ 2 }
{
    let pair = Pair::new();
    let Some(stage) = stage_of(alloc, row.1, &pair) else {
        return Err(JobFault::NoMemory);
    };
    let Stage {
        mut wires,
        mut gates,
    } = stage;
    let status = sincronia(
        rt,
        alloc,
        words,
        &mut job.shelf,
        &mut job.out,
        &mut wires,
        &mut gates,
        bench,
    );
    let stage = Stage { wires, gates };
    let told = tell(rt, row.0, row.1, status, job.out.bytes(), &stage);
    drop(stage);
    Ok(told?)
}

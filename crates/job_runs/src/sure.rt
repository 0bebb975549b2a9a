//! A plan whose files and text never fail.

use crate::fault::JobFault;
use crate::meeting::{Pair, Waiting};
use crate::row::{Bench, Row, words_of};
use crate::stage::{Stage, stage_of};
use command_files::Status;
use outside::{SureShelf, SureSink};
use rankers::Ranker;
use sincronia_cli::sincronia;
use std::alloc::Global;
use std::sync::Wait;
use std::thread::Threads;
use text_fields::Fields;

/// How many bytes a read gives at most.
const PIECE: usize = 65_536;

/// Nobody waits, and no wire fails.
const QUIET: Row<'static> = Row {
    trace: "t",
    beside: "t",
    piece: 1,
    failing_call: 0,
    fail_after: None,
    fail_at: [0, 0],
    waiting: Waiting::Nobody,
    bench: Bench::Empty,
    told: false,
};

/// How a plan ended, and how many bytes it wrote.
#[derive(Clone, Copy)]
pub struct SureEnd {
    pub status: Status,
    pub written: u64,
}

/// How a plan ends of a trace of these bytes, which lies on a shelf that never fails, and whose text goes to a sink
/// that never fails.
///
/// The error is want of memory.
pub fn sure_plan<R: Threads + Wait + Sync>(
    rt: &R,
    alloc: Global,
    trace: &[u8],
) -> Result<SureEnd, JobFault> {
    let mut shelf = SureShelf::new(alloc, PIECE)?;
    shelf.put("t", trace)?;
    let Some(words) = words_of(alloc, &mut Fields::new(1, b"plan t".as_slice())) else {
        drop(shelf);
        return Err(JobFault::NoMemory);
    };
    let end = plan_on(rt, alloc, &words, &mut shelf);
    drop(shelf);
    drop(words);
    end
}

/// Plans what the words name on the shelf.
fn plan_on<R: Threads + Wait + Sync>(
    rt: &R,
    alloc: Global,
    words: &[String],
    shelf: &mut SureShelf,
) -> Result<SureEnd, JobFault> {
    let pair = Pair::new();
    let Some(stage) = stage_of(alloc, QUIET, &pair) else {
        return Err(JobFault::NoMemory);
    };
    let Stage {
        mut wires,
        mut gates,
    } = stage;
    let mut out = SureSink::new();
    let mut bench: Vec<Box<dyn Ranker>> = Vec::new(alloc);
    let status = sincronia(
        rt, alloc, words, shelf, &mut out, &mut wires, &mut gates, &mut bench,
    );
    Ok(SureEnd {
        status,
        written: out.length(),
    })
}

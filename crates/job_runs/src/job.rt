//! The files and the sink of a job.
ghost use Rattle.std.specs.Prelude.{◌≡◌, [], codes, IfOk, IfSome};
ghost use Rattle.outside.specs.MemSink.{limit};
ghost use Rattle.outside.specs.Shelf.{bytes_of};
ghost use Rattle.job_runs.specs.Files.{HasBoth, HasBytes, IsUnread};

use crate::row::Row;
use outside::{MemShelf, MemSink, Place4, Shelf};
use std::alloc::Global;
use test_support::{FileFault, bytes_of_file};

/// What a job is given of the files `t` and `s` and of the sink.
#[derive(Clone, Copy)]
pub struct Given<'a> {
    /// The bytes of the file `t`, a trace.
    pub trace: &'a [u8],
    /// The bytes of the file `s`, a report or a script.
    pub beside: &'a [u8],
    /// How many bytes a read gives at most; 0 counts as 1.
    pub piece: usize,
    /// The call of the shelf that fails, counted from 1; 0 is no call's.
    pub failing_call: u32,
    /// How many bytes the sink takes until it fails. It has room for 4096, and without a number it fails where they are
    /// full.
    pub fail_after: Option<u64>,
}

/// How many bytes the sink of a job has room for.
const ROOM: usize = 4096;

/// The files and the sink of a job.
#[derive(Drop)]
pub struct SmallJob {
    /// The files `t` and `s`.
    pub shelf: MemShelf,
    /// What takes the text.
    pub out: MemSink,
}

impl SmallJob {
    /// What a job is given, of which no call failed and nothing is written yet. None means that memory was wanting.
    pub fn new(alloc: Global, given: Given<'_>) -> Option<SmallJob>
        ensures files { IfSome result (λ job. HasBoth given.entry.trace.now given.entry.beside.now job.shelf) }
        ensures calls { IfSome result (λ job. IsUnread given.entry.piece given.entry.failing_call job.shelf) }
        ensures written { IfSome result (λ job. job.out.taken.items ≡ []) }
        ensures room { IfSome result (λ job. job.out.limit ≡ limit ROOM given.entry.fail_after) }
    {
        let Some(shelf) = shelf_of(
            alloc,
            given.trace,
            given.beside,
            given.piece,
            given.failing_call,
        ) else {
            return None;
        };
        let Ok(out) = MemSink::new(alloc, ROOM, given.fail_after) else {
            drop(shelf);
            return None;
        };
        Some(SmallJob { shelf, out })
    }
}

/// What the command of a row is given. Its files are read at the place of traces.
///
/// The error is that of the first file that is not read, or want of memory.
pub fn job_of<H: Shelf>(alloc: Global, shelf: &mut H, row: Row<'_>) -> Result<SmallJob, FileFault>
    ensures trace { IfOk result (λ job. IfSome (H.told shelf.old)
        (λ t. HasBytes (codes "t") (bytes_of t row.entry.trace.now) job.shelf)) }
    ensures calls { IfOk result (λ job. IsUnread row.entry.piece row.entry.failing_call job.shelf) }
    ensures written { IfOk result (λ job. job.out.taken.items ≡ []) }
    ensures room { IfOk result (λ job. job.out.limit ≡ limit ROOM row.entry.fail_after) }
{
    let trace = bytes_of_file(alloc, shelf, Place4::Trace, row.trace)?;
    let beside = match bytes_of_file(alloc, shelf, Place4::Trace, row.beside) {
        Ok(beside) => beside,
        Err(fault) => {
            drop(trace);
            return Err(fault);
        }
    };
    let given = Given {
        trace: &trace,
        beside: &beside,
        piece: row.piece as usize,
        failing_call: row.failing_call,
        fail_after: row.fail_after,
    };
    let job = SmallJob::new(alloc, given);
    drop(trace);
    drop(beside);
    job.ok_or(FileFault::NoMemory)
}

/// A shelf of two files, `t` and `s`.
fn shelf_of(
    alloc: Global,
    trace: &[u8],
    beside: &[u8],
    piece: usize,
    failing_call: u32,
) -> Option<MemShelf>
    ensures files { IfSome result (HasBoth trace.now beside.now) }
    ensures calls { IfSome result (IsUnread piece failing_call) }
{
    let Ok(calls) = vec![in alloc; failing_call; 1] else {
        return None;
    };
    let Ok(mut shelf) = MemShelf::new(alloc, piece.max(1), calls) else {
        return None;
    };
    let Ok(()) = shelf.put("t", trace) else {
        drop(shelf);
        return None;
    };
    let Ok(()) = shelf.put("s", beside) else {
        drop(shelf);
        return None;
    };
    Some(shelf)
}

//! Files in memory, and the places at which they are read.
ghost use Rattle.std.specs.Prelude.{◌≡◌, ℕ, ◌+◌, ◌-◌, ◌^◌, ◌<◌, ◌≤◌, ◌≢◌, ◌↔◌, Contains, IsTrue, None, Ok, OnErr, OnOk, drop, length, max, min};
ghost use Rattle.outside.specs.declared.sink.Failed.{Failed};
ghost use Rattle.outside.specs.Rose.{RoseOnce};
ghost use Rattle.outside.specs.Shelf.{Moves};
ghost use Rattle.outside.specs.Files.{bytes_at, contents_of, count_at, counts_of, file_at, held, names_of, number_of, with_held, CountsName, HasNoFile, LeavesOtherNames, Puts};

use crate::piece::Piece;
use crate::shelf::Place4;
use coflow_units::NoMemory;
use std::alloc::Global;

/// A file in memory. Files are numbered by their places in a list, and each number past the end stands for the missing
/// file, which holds nothing.
#[derive(Drop)]
pub(crate) struct File {
    name: String,
    bytes: Vec<u8>,
    faults: u64,
}

/// The count of all faults, and that of the missing file.
#[derive(Drop)]
pub(crate) struct Counts {
    pub(crate) all: u64,
    pub(crate) missing: u64,
}

/// What is read at a place: the number of a file, and how many of its bytes were taken.
#[derive(Clone, Copy, Drop)]
pub(crate) struct Opened {
    pub(crate) file: usize,
    pub(crate) taken: usize,
}

/// What is held at each place, where it is started.
#[derive(Drop)]
pub(crate) struct Places<T> {
    trace: Option<T>,
    weights: Option<T>,
    report: Option<T>,
    script: Option<T>,
}

impl<T: Copy + Drop> Places<T> {
    /// No place is started.
    pub(crate) fn new() -> Self
        ensures { (p : _) → held result p ≡ None }
    {
        Places {
            trace: None,
            weights: None,
            report: None,
            script: None,
        }
    }

    pub(crate) fn get(&self, place: Place4) -> Option<T>
        ensures { result ≡ held self.now place }
    {
        match place {
            Place4::Trace => self.trace,
            Place4::Weights => self.weights,
            Place4::Report => self.report,
            Place4::Script => self.script,
        }
    }

    pub(crate) fn set(&mut self, place: Place4, value: Option<T>)
        ensures { self.new ≡ with_held self.old place value }
    {
        match place {
            Place4::Trace => self.trace = value,
            Place4::Weights => self.weights = value,
            Place4::Report => self.report = value,
            Place4::Script => self.script = value,
        }
    }
}

/// The number of the file under a name.
pub(crate) fn number_of(files: &[File], name: &str) -> usize
    ensures { result ≡ number_of (names_of files.now) name.now }
{
    for (number, file) in files.iter().enumerate() {
        if file.name.as_str() == name {
            return number;
        }
    }
    files.len()
}

/// The bytes of a file.
pub(crate) fn bytes_at(files: &[File], number: usize) -> &[u8]
    ensures { result.now ≡ bytes_at (contents_of files.now) number }
{
    match files.get(number) {
        Some(file) => file.bytes.as_slice(),
        None => &[],
    }
}

/// Copies bytes of a file, at most `piece`, behind those that were taken, and answers how many.
pub(crate) fn copy_some(bytes: &[u8], taken: usize, piece: Piece, buffer: &mut [u8]) -> usize
    requires { 0 < length buffer.old }
    ensures bound { result ≤ length buffer.new }
    ensures piece { result ≤ piece.size }
    ensures fits { taken + result ≤ max taken (length bytes.now) }
    ensures moves { Moves {E = Failed} (drop taken bytes.now) (drop (taken + result) bytes.now) buffer.new (Ok result) }
{
    let start = taken.min(bytes.len());
    let rest = &bytes[start..];
    let count = rest.len().min(piece.size()).min(buffer.len());
    buffer[..count].copy_from_slice(&rest[..count]);
    count
}

/// Counts a call, and answers whether its number, counted from 1, is one of those that fail.
pub(crate) fn next_fails(calls: &mut u64, fails: &[u32]) -> bool
    ensures counted { calls.new ≡ min (calls.old + 1) (2 ^ 64 - 1) }
    ensures answer { IsTrue result ↔ Contains fails.now calls.new }
{
    *calls = calls.saturating_add(1);
    let number = *calls;
    fails.iter().any(|call| u64::from(*call) == number)
}

/// Adds one to the count of all faults and to that of a file, and leaves the counts of other files. Counts end at 2^64
/// - 1.
pub(crate) fn raise(files: &mut [File], counts: &mut Counts, number: usize)
    ensures all { counts.new.all ≡ min (counts.old.all + 1) (2 ^ 64 - 1) }
    ensures grows { counts.old.all ≤ counts.new.all }
    ensures names { names_of files.new ≡ names_of files.old }
    ensures contents { contents_of files.new ≡ contents_of files.old }
    ensures rose { RoseOnce (count_at (counts_of files.old) counts.old.missing (file_at files.old number))
        (count_at (counts_of files.new) counts.new.missing (file_at files.old number)) }
    ensures others { (k : ℕ) → k ≢ file_at files.old number → k ≤ length files.old →
        count_at (counts_of files.new) counts.new.missing k ≡ count_at (counts_of files.old) counts.old.missing k }
    ensures later { (k : ℕ) →
        count_at (counts_of files.old) counts.old.missing k ≤ count_at (counts_of files.new) counts.new.missing k }
{
    counts.all = counts.all.saturating_add(1);
    if number < files.len() {
        let file = &mut files[number];
        file.faults = file.faults.saturating_add(1);
    } else {
        counts.missing = counts.missing.saturating_add(1);
    }
}

/// Puts bytes under a name. A new file begins with the count of the missing file.
pub(crate) fn put(
    alloc: Global,
    files: &mut Vec<File>,
    missing: u64,
    name: &str,
    bytes: &[u8],
) -> Result<(), NoMemory>
    ensures ok { OnOk result (Puts files.old.items files.new.items missing name.now bytes.now) }
    ensures named { OnOk result (HasNoFile files.new.items name.now → ⊥) }
    ensures alone { OnOk result (LeavesOtherNames files.old.items files.new.items name.now) }
    ensures count { OnOk result (CountsName files.old.items files.new.items name.now) }
    ensures no_memory { OnErr result (files.new.items ≡ files.old.items) }
{
    let bytes = Vec::from_slice(alloc, bytes)?;
    let number = number_of(files, name);
    if number < files.len() {
        files[number].bytes = bytes;
        return Ok(());
    }
    let name = String::from_str(alloc, name)?;
    let file = File {
        name,
        bytes,
        faults: missing,
    };
    files.push(file)?;
    Ok(())
}

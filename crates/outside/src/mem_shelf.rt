//! A shelf in memory, of which some calls fail.
ghost use Rattle.std.specs.Prelude.{◌≡◌, ℕ, ◌+◌, ◌-◌, ◌^◌, ◌<◌, ◌≤◌, ◌⊎◌, List, false, is_ok, length, min, true, IfOk, IsOkAnd, OnErr, OnOk, Some};
ghost use Rattle.std.specs.Io.{ReadsAtMost};
ghost use Rattle.outside.specs.Rose.{Rose, RoseOnce};
ghost use Rattle.outside.specs.Shelf.{IsBare, PutsBytes, Reads, SameElsewhere, Starts};
ghost use Rattle.outside.specs.MemShelf.{count_of, mem_faults, mem_started, mem_told, piece_of, CountsOnce, FailsNow, HasMade, HasSameCounts, HasSameNames, IsMissing, LeavesOthers};

use crate::files::{
    Counts, File, Opened, Places, bytes_at, copy_some, next_fails, number_of, put, raise,
};
use crate::piece::Piece;
use crate::shelf::{Place4, Shelf};
use crate::sink::Failed;
use coflow_units::NoMemory;
use std::alloc::Global;

/// A shelf in memory. A read gives at most so many bytes, and the calls with the given numbers fail.
#[derive(Drop)]
pub struct MemShelf {
    alloc: Global,
    files: Vec<File>,
    places: Places<Opened>,
    piece: Piece,
    fails: Vec<u32>,
    calls: u64,
    counts: Counts,
}

impl MemShelf {
    /// A shelf without files. A read gives at most `piece` bytes. The calls of `start` and `read` whose numbers,
    /// counted from 1, stand in `fails` fail.
    ///
    /// `NoMemory` never comes: an empty shelf takes none.
    pub fn new(alloc: Global, piece: usize, fails: Vec<u32>) -> Result<MemShelf, NoMemory>
        requires { 1 ≤ piece }
        ensures faults { IsOkAnd result (λ s. mem_faults s ≡ 0) }
        ensures told { IsOkAnd result (λ s. IsBare (mem_told s)) }
        ensures started { IsOkAnd result (λ s. (p : _) → mem_started s p ≡ false) }
        ensures calls { IsOkAnd result (λ s. (s.fails.items ≡ fails.items) × (s.calls ≡ 0)) }
        ensures piece { IsOkAnd result (λ s. piece_of s ≡ piece) }
        ensures names { IsOkAnd result (λ s. (name : List ℕ) → IsMissing s name) }
        ensures count { IsOkAnd result (λ s. count_of s ≡ 0) }
    {
        Ok(MemShelf {
            alloc,
            files: Vec::new(alloc),
            places: Places::new(),
            piece: Piece::new(piece),
            fails,
            calls: 0,
            counts: Counts { all: 0, missing: 0 },
        })
    }

    /// Sets the bytes under a name, in place of those before. No place is started afterwards.
    ///
    /// `NoMemory` leaves the shelf as it was.
    pub fn put(&mut self, name: &str, bytes: &[u8]) -> Result<(), NoMemory>
        ensures put { OnOk result (PutsBytes (mem_told self.old) (mem_told self.new) name.now bytes.now) }
        ensures stopped { OnOk result ((p : _) → mem_started self.new p ≡ false) }
        ensures faults { mem_faults self.new ≡ mem_faults self.old }
        ensures calls { HasMade self.old self.new self.old.calls }
        ensures piece { piece_of self.new ≡ piece_of self.old }
        ensures named { OnOk result (IsMissing self.new name.now → ⊥) }
        ensures alone { OnOk result (LeavesOthers self.old self.new name.now) }
        ensures count { OnOk result (CountsOnce self.old self.new name.now) }
        ensures names { OnErr result (HasSameNames self.old self.new × (count_of self.new ≡ count_of self.old)) }
        ensures no_memory { OnErr result (mem_told self.new ≡ mem_told self.old) }
        ensures started { OnErr result (mem_started self.new ≡ mem_started self.old) }
    {
        put(
            self.alloc,
            &mut self.files,
            self.counts.missing,
            name,
            bytes,
        )?;
        self.places = Places::new();
        Ok(())
    }
}

impl Shelf for MemShelf {
    ghost use Rattle.std.specs.Prelude.{Some};
    ghost use Rattle.outside.specs.MemShelf.{mem_faults, mem_started, mem_told};

    ghost faults = { mem_faults };

    ghost started = { mem_started };

    ghost told = { λ s. Some (mem_told s) };

    /// Fails exactly at a name that was not put and at a call that is to fail.
    fn start(&mut self, place: Place4, name: &str) -> Result<(), Failed>
        ensures later { mem_faults self.old ≤ mem_faults self.new }
        ensures cause { OnErr result (Rose (mem_faults self.old) (mem_faults self.new)) }
        ensures still { OnOk result (mem_faults self.new ≡ mem_faults self.old) }
        ensures once { OnErr result (RoseOnce (mem_faults self.old) (mem_faults self.new)) }
        ensures counts { OnOk result (HasSameCounts self.old self.new) }
        ensures started { mem_started self.new place ≡ is_ok result }
        ensures others { SameElsewhere place (mem_started self.old) (mem_started self.new) }
        ensures told { Starts (Some (mem_told self.old)) (Some (mem_told self.new)) place name.now result }
        ensures counted { HasMade self.old self.new (min (self.old.calls + 1) (2 ^ 64 - 1)) }
        ensures fails { OnErr result (FailsNow self.new ⊎ IsMissing self.old name.now) }
        ensures succeeds { OnOk result ((FailsNow self.new → ⊥) × (IsMissing self.old name.now → ⊥)) }
        ensures names { HasSameNames self.old self.new }
        ensures piece { piece_of self.new ≡ piece_of self.old }
    {
        let file = number_of(&self.files, name);
        let failing = next_fails(&mut self.calls, &self.fails);
        if failing || file == self.files.len() {
            raise(&mut self.files, &mut self.counts, file);
            self.places.set(place, None);
            return Err(Failed);
        }
        self.places.set(place, Some(Opened { file, taken: 0 }));
        Ok(())
    }

    /// Fails exactly at a call that is to fail.
    fn read(&mut self, place: Place4, buffer: &mut [u8]) -> Result<usize, Failed>
        requires room { 0 < length buffer.old }
        requires started { mem_started self.old place ≡ true }
        ensures later { mem_faults self.old ≤ mem_faults self.new }
        ensures cause { OnErr result (Rose (mem_faults self.old) (mem_faults self.new)) }
        ensures still { OnOk result (mem_faults self.new ≡ mem_faults self.old) }
        ensures once { OnErr result (RoseOnce (mem_faults self.old) (mem_faults self.new)) }
        ensures counts { OnOk result (HasSameCounts self.old self.new) }
        ensures bound { ReadsAtMost result buffer.new }
        ensures started { mem_started self.new ≡ mem_started self.old }
        ensures told { Reads (Some (mem_told self.old)) (Some (mem_told self.new)) place buffer.new result }
        ensures counted { HasMade self.old self.new (min (self.old.calls + 1) (2 ^ 64 - 1)) }
        ensures fails { OnErr result (FailsNow self.new) }
        ensures succeeds { OnOk result (FailsNow self.new → ⊥) }
        ensures names { HasSameNames self.old self.new }
        ensures piece { piece_of self.new ≡ piece_of self.old }
        ensures at_most { IfOk result (λ n. n ≤ piece_of self.old) }
    {
        let Some(opened) = self.places.get(place) else {
            unreachable!()
        };
        if next_fails(&mut self.calls, &self.fails) {
            raise(&mut self.files, &mut self.counts, opened.file);
            return Err(Failed);
        }
        let bytes = bytes_at(&self.files, opened.file);
        let count = copy_some(bytes, opened.taken, self.piece, buffer);
        let taken = opened.taken + count;
        self.places.set(place, Some(Opened { taken, ..opened }));
        Ok(count)
    }
}

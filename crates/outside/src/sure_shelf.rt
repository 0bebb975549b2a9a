//! A shelf in memory that never fails.
ghost use Rattle.std.specs.Prelude.{◌≡◌, ◌<◌, ◌≤◌, false, length, true, IfOk, IsOk, IsOkAnd, OnErr, OnOk, Some};
ghost use Rattle.std.specs.Io.{ReadsAtMost};
ghost use Rattle.outside.specs.Shelf.{IsBare, PutsBytes, Reads, SameElsewhere, Starts};
ghost use Rattle.outside.specs.SureShelf.{sure_piece, sure_started, sure_told};

use crate::files::{File, Opened, Places, bytes_at, copy_some, number_of, put};
use crate::piece::Piece;
use crate::shelf::{Place4, Shelf};
use crate::sink::Failed;
use coflow_units::NoMemory;
use std::alloc::Global;

/// A shelf in memory without faults. A name that was not put holds no bytes.
#[derive(Drop)]
pub struct SureShelf {
    alloc: Global,
    files: Vec<File>,
    places: Places<Opened>,
    piece: Piece,
}

impl SureShelf {
    /// A shelf without files. A read gives at most `piece` bytes.
    ///
    /// `NoMemory` never comes: an empty shelf takes none.
    pub fn new(alloc: Global, piece: usize) -> Result<SureShelf, NoMemory>
        requires { 1 ≤ piece }
        ensures told { IsOkAnd result (λ s. IsBare (sure_told s)) }
        ensures started { IsOkAnd result (λ s. (p : _) → sure_started s p ≡ false) }
        ensures piece { IsOkAnd result (λ s. sure_piece s ≡ piece) }
    {
        Ok(SureShelf {
            alloc,
            files: Vec::new(alloc),
            places: Places::new(),
            piece: Piece::new(piece),
        })
    }

    /// Sets the bytes under a name, in place of those before. No place is started afterwards.
    ///
    /// `NoMemory` leaves the shelf as it was.
    pub fn put(&mut self, name: &str, bytes: &[u8]) -> Result<(), NoMemory>
        ensures put { OnOk result (PutsBytes (sure_told self.old) (sure_told self.new) name.now bytes.now) }
        ensures stopped { OnOk result ((p : _) → sure_started self.new p ≡ false) }
        ensures piece { sure_piece self.new ≡ sure_piece self.old }
        ensures no_memory { OnErr result (sure_told self.new ≡ sure_told self.old) }
        ensures started { OnErr result (sure_started self.new ≡ sure_started self.old) }
    {
        put(self.alloc, &mut self.files, 0, name, bytes)?;
        self.places = Places::new();
        Ok(())
    }
}

impl Shelf for SureShelf {
    ghost use Rattle.std.specs.Prelude.{Some};
    ghost use Rattle.outside.specs.SureShelf.{sure_started, sure_told};

    ghost faults = { λ _. 0 };

    ghost started = { sure_started };

    ghost told = { λ s. Some (sure_told s) };

    /// Never fails.
    fn start(&mut self, place: Place4, name: &str) -> Result<(), Failed>
        ensures never_fails { IsOk result }
        ensures started { sure_started self.new place ≡ true }
        ensures others { SameElsewhere place (sure_started self.old) (sure_started self.new) }
        ensures piece { sure_piece self.new ≡ sure_piece self.old }
        ensures told { Starts (Some (sure_told self.old)) (Some (sure_told self.new)) place name.now result }
    {
        let file = number_of(&self.files, name);
        self.places.set(place, Some(Opened { file, taken: 0 }));
        Ok(())
    }

    /// Never fails.
    fn read(&mut self, place: Place4, buffer: &mut [u8]) -> Result<usize, Failed>
        requires room { 0 < length buffer.old }
        requires started { sure_started self.old place ≡ true }
        ensures never_fails { IsOk result }
        ensures bound { ReadsAtMost result buffer.new }
        ensures started { sure_started self.new ≡ sure_started self.old }
        ensures piece { sure_piece self.new ≡ sure_piece self.old }
        ensures at_most { IfOk result (λ n. n ≤ sure_piece self.old) }
        ensures told { Reads (Some (sure_told self.old)) (Some (sure_told self.new)) place buffer.new result }
    {
        let Some(opened) = self.places.get(place) else {
            unreachable!()
        };
        let bytes = bytes_at(&self.files, opened.file);
        let count = copy_some(bytes, opened.taken, self.piece, buffer);
        let taken = opened.taken + count;
        self.places.set(place, Some(Opened { taken, ..opened }));
        Ok(count)
    }
}

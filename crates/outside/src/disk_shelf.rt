//! The files of the system as a shelf.
ghost use Rattle.std.specs.Prelude.{◌≡◌, ◌<◌, ◌≤◌, OnErr, OnOk, Some, length, is_ok, is_some, true};
ghost use Rattle.std.specs.Io.{ReadsAtMost};
ghost use Rattle.std.specs.Io.KnownBytes.{ReadConsumes};
ghost use Rattle.outside.specs.Rose.{Rose, RoseOnce};
ghost use Rattle.outside.specs.Shelf.{SameElsewhere};

use crate::shelf::{Place4, Shelf};
use crate::sink::Failed;
use std::fs;
use std::io::Read;
use std::rt::Files;

/// Files of the system by their paths. It tells no content. A call that fails raises its count of
/// faults by one, up to 2^64 - 1.
#[derive(Drop)]
pub struct DiskShelf<R: Files + Drop> {
    files: R,
    trace: Option<R::File>,
    weights: Option<R::File>,
    report: Option<R::File>,
    script: Option<R::File>,
    faults: u64,
}

impl<R: Files + Drop> DiskShelf<R> {
    /// A shelf over the files of a runtime. It takes no memory.
    pub fn new(files: R) -> DiskShelf<R>
        ensures { result.faults ≡ 0 }
    {
        DiskShelf {
            files,
            trace: None,
            weights: None,
            report: None,
            script: None,
            faults: 0,
        }
    }
}

/// Opens a file to be read, and counts a failure.
fn open<R: Files>(
    files: &R,
    name: &str,
    opened: &mut Option<R::File>,
    faults: &mut u64,
) -> Result<(), Failed>
    ensures opened { is_some opened.new ≡ is_ok result }
    ensures later { faults.old ≤ faults.new }
    ensures cause { OnErr result (Rose faults.old faults.new) }
    ensures still { OnOk result (faults.new ≡ faults.old) }
    ensures once { OnErr result (RoseOnce faults.old faults.new) }
{
    match fs::open(files, name) {
        Ok(file) => {
            *opened = Some(file);
            Ok(())
        }
        Err(_) => {
            *opened = None;
            *faults = faults.saturating_add(1);
            Err(Failed)
        }
    }
}

/// Reads from an open file, and counts a failure. Where the file tells its bytes: it hands on the first that are left,
/// and none only at the end.
fn read_some<F: Read>(
    opened: &mut Option<F>,
    buffer: &mut [u8],
    faults: &mut u64,
) -> Result<usize, Failed>
    requires { is_some opened.old ≡ true }
    ensures opened { is_some opened.new ≡ true }
    ensures later { faults.old ≤ faults.new }
    ensures cause { OnErr result (Rose faults.old faults.new) }
    ensures still { OnOk result (faults.new ≡ faults.old) }
    ensures once { OnErr result (RoseOnce faults.old faults.new) }
    ensures bound { ReadsAtMost result buffer.new }
    ensures bytes { (before after : F) → opened.old ≡ Some before → opened.new ≡ Some after →
        ReadConsumes (F.remaining before) (F.remaining after) result buffer.new }
{
    let Some(file) = opened else { unreachable!() };
    let Ok(count) = file.read(buffer) else {
        *faults = faults.saturating_add(1);
        return Err(Failed);
    };
    Ok(count)
}

impl<R: Files + Drop> Shelf for DiskShelf<R> {
    ghost use Rattle.std.specs.Prelude.{None, is_some};
    ghost use Rattle.outside.specs.Places.{at_place};

    ghost faults = { λ s. s.faults };

    ghost started = { λ s. at_place (is_some s.trace) (is_some s.weights) (is_some s.report) (is_some s.script) };

    ghost told = { λ _. None };

    /// Opens the file to be read. What stands at the other places is as before.
    fn start(&mut self, place: Place4, name: &str) -> Result<(), Failed>
        ensures later { self.old.faults ≤ self.new.faults }
        ensures cause { OnErr result (Rose self.old.faults self.new.faults) }
        ensures still { OnOk result (self.new.faults ≡ self.old.faults) }
        ensures once { OnErr result (RoseOnce self.old.faults self.new.faults) }
        ensures started { at_place (is_some self.new.trace) (is_some self.new.weights) (is_some self.new.report)
            (is_some self.new.script) place ≡ is_ok result }
        ensures others { SameElsewhere place
            (at_place (is_some self.old.trace) (is_some self.old.weights) (is_some self.old.report)
            (is_some self.old.script))
            (at_place (is_some self.new.trace) (is_some self.new.weights) (is_some self.new.report)
            (is_some self.new.script)) }
        ensures elsewhere { SameElsewhere place
            (at_place self.old.trace self.old.weights self.old.report self.old.script)
            (at_place self.new.trace self.new.weights self.new.report self.new.script) }
    {
        match place {
            Place4::Trace => open(&self.files, name, &mut self.trace, &mut self.faults),
            Place4::Weights => open(&self.files, name, &mut self.weights, &mut self.faults),
            Place4::Report => open(&self.files, name, &mut self.report, &mut self.faults),
            Place4::Script => open(&self.files, name, &mut self.script, &mut self.faults),
        }
    }

    /// Reads from the file at the place. Where it tells its bytes: hands on the first that it has left, and none only
    /// at its end. What stands at the other places is as before.
    fn read(&mut self, place: Place4, buffer: &mut [u8]) -> Result<usize, Failed>
        requires room { 0 < length buffer.old }
        requires started { at_place (is_some self.old.trace) (is_some self.old.weights) (is_some self.old.report)
            (is_some self.old.script) place ≡ true }
        ensures later { self.old.faults ≤ self.new.faults }
        ensures cause { OnErr result (Rose self.old.faults self.new.faults) }
        ensures still { OnOk result (self.new.faults ≡ self.old.faults) }
        ensures once { OnErr result (RoseOnce self.old.faults self.new.faults) }
        ensures bound { ReadsAtMost result buffer.new }
        ensures started { at_place (is_some self.new.trace) (is_some self.new.weights) (is_some self.new.report)
            (is_some self.new.script) ≡ at_place (is_some self.old.trace) (is_some self.old.weights)
            (is_some self.old.report) (is_some self.old.script) }
        ensures bytes { (before after : R.File) →
            at_place self.old.trace self.old.weights self.old.report self.old.script place ≡ Some before →
            at_place self.new.trace self.new.weights self.new.report self.new.script place ≡ Some after →
            ReadConsumes (R.File.remaining before) (R.File.remaining after) result buffer.new }
        ensures elsewhere { SameElsewhere place
            (at_place self.old.trace self.old.weights self.old.report self.old.script)
            (at_place self.new.trace self.new.weights self.new.report self.new.script) }
    {
        match place {
            Place4::Trace => read_some(&mut self.trace, buffer, &mut self.faults),
            Place4::Weights => read_some(&mut self.weights, buffer, &mut self.faults),
            Place4::Report => read_some(&mut self.report, buffer, &mut self.faults),
            Place4::Script => read_some(&mut self.script, buffer, &mut self.faults),
        }
    }
}

//! Files, and the tables of their traces.
ghost use Rattle.std.specs.Prelude.{◌≡◌, ◌≤◌, ◌<◌, true, Err, IfOk, IfSome, length};
ghost use Rattle.coflow_units.specs.declared.limits.TheConstants.{MAX_TEXT};
ghost use Rattle.flow_table.specs.Table.{IsTable, IsTableOf};
ghost use Rattle.outside.specs.Rose.{Rose};
ghost use Rattle.outside.specs.declared.shelf.Place4.{Place4};
ghost use Rattle.outside.specs.Shelf.{SameElsewhere, bytes_of};
ghost use Rattle.trace_reader.specs.Trace.{trace_of};
ghost use Rattle.test_support.specs.Faults.{HasNoTable};
ghost use Rattle.test_support.specs.declared.fault.TextFault.{TextFault};

use crate::fault::{FileFault, TextFault};
use crate::table::table_of_text;
use coflow_units::{MAX_TEXT, UnitSize};
use flow_table::Table;
use outside::{Place4, ReadStop, Shelf, read_all};
use std::alloc::Global;

/// The bytes of a file, which are read at this place.
///
/// `NotRead` comes where a call to the shelf failed, by which its count of faults rose, `Text` of `TooLong` where there
/// are more than 2^26 bytes, and `NoMemory` where no memory was to be had. The place is started where the bytes are
/// answered, and every other place is as it was.
pub fn bytes_of_file<H: Shelf>(
    alloc: Global,
    shelf: &mut H,
    place: Place4,
    name: &str,
) -> Result<Vec<u8>, FileFault>
    ensures bytes { IfOk result (λ bytes. IfSome (H.told shelf.old) (λ t. bytes.items ≡ bytes_of t name.now)) }
    ensures short { IfOk result (λ bytes. length bytes.items ≤ MAX_TEXT) }
    ensures fault { result ≡ Err FileFault.NotRead → Rose (H.faults shelf.old) (H.faults shelf.new) }
    ensures long { (fault : TextFault) → result ≡ Err (FileFault.Text fault) → (fault ≡ TextFault.TooLong) ×
        IfSome (H.told shelf.old) (λ t. MAX_TEXT < length (bytes_of t name.now)) }
    ensures started { IfOk result (λ _. H.started shelf.new place ≡ true) }
    ensures others { SameElsewhere place (H.started shelf.old) (H.started shelf.new) }
{
    let Ok(()) = shelf.start(place, name) else {
        return Err(FileFault::NotRead);
    };
    match read_all(alloc, shelf, place, MAX_TEXT) {
        Ok(bytes) => Ok(bytes),
        Err(ReadStop::Fault) => Err(FileFault::NotRead),
        Err(ReadStop::TooLong) => Err(FileFault::Text(TextFault::TooLong)),
        Err(ReadStop::NoMemory) => Err(FileFault::NoMemory),
    }
}

/// The table of the trace in a file, with units of that size. The file is read at the place of traces, and every other
/// place is as it was.
///
/// `NotRead` comes where a call to the shelf failed, by which its count of faults rose, `Text` where the bytes are too
/// many or give no table, with the cause, and `NoMemory` where no memory was to be had for the bytes.
pub fn table_of_file<H: Shelf>(
    alloc: Global,
    shelf: &mut H,
    name: &str,
    unit: UnitSize,
) -> Result<Table, FileFault>
    ensures table { IfOk result (λ table. IfSome (H.told shelf.old) (λ t.
        IsTableOf (trace_of (bytes_of t name.now)) unit.megabytes table)) }
    ensures within_limits { IfOk result IsTable }
    ensures fault { result ≡ Err FileFault.NotRead → Rose (H.faults shelf.old) (H.faults shelf.new) }
    ensures cause { (fault : TextFault) → result ≡ Err (FileFault.Text fault) →
        IfSome (H.told shelf.old) (λ t. HasNoTable (bytes_of t name.now) unit.megabytes fault) }
    ensures others { SameElsewhere Place4.Trace (H.started shelf.old) (H.started shelf.new) }
{
    let bytes = bytes_of_file(alloc, shelf, Place4::Trace, name)?;
    match table_of_text(alloc, &bytes, unit) {
        Ok(table) => Ok(table),
        Err(fault) => Err(FileFault::Text(fault)),
    }
}

//! The table of a trace's text.
ghost use Rattle.std.specs.Prelude.{IfErr, IfOk};
ghost use Rattle.flow_table.specs.Table.{IsTable, IsTableOf};
ghost use Rattle.trace_reader.specs.Trace.{trace_of};
ghost use Rattle.test_support.specs.Faults.{HasNoTable};

use crate::fault::TextFault;
use coflow_units::{MAX_TEXT, UnitSize};
use flow_table::Table;
use std::alloc::Global;
use trace_reader::read_trace;

/// The table of a trace's text, with units of that size.
///
/// `TooLong` comes where the text has more than 2^26 bytes, `Trace` where it is no trace, with its first fault, and
/// `Table` where the trace makes no table, with the cause. Want of memory comes as the fault of a trace or of a table.
pub fn table_of_text(alloc: Global, text: &[u8], unit: UnitSize) -> Result<Table, TextFault>
    ensures table { IfOk result (λ table. IsTableOf (trace_of text.now) unit.megabytes table) }
    ensures within_limits { IfOk result IsTable }
    ensures cause { IfErr result (HasNoTable text.now unit.megabytes) }
{
    if text.len() > MAX_TEXT {
        return Err(TextFault::TooLong);
    }
    let trace = match read_trace(alloc, text) {
        Ok(trace) => trace,
        Err(fault) => return Err(TextFault::Trace(fault)),
    };
    match Table::build(alloc, &trace, unit.megabytes) {
        Ok(table) => Ok(table),
        Err(fault) => Err(TextFault::Table(fault)),
    }
}

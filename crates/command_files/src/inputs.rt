//! The files of a command: the trace, the weights of its coflows, and a report, a printed journal, an order or a
//! script.
ghost use Rattle.std.specs.Prelude.{◌≡◌, ◌≤◌, ℕ, None, IfErr, IfOk, IfSome, OnOk, length, option_map, replicate};
ghost use Rattle.coflow_units.specs.declared.limits.TheConstants.{MAX_REPORT};
ghost use Rattle.coflow_units.specs.Trace.{IsTrace};
ghost use Rattle.flow_table.specs.Table.{IsTable, IsTableOf};
ghost use Rattle.outside.specs.declared.shelf.Place4.{Place4};
ghost use Rattle.outside.specs.Shelf.{bytes_of};
ghost use Rattle.live_text.specs.Reading.{IsBadAt as IsBadJournalAt};
ghost use Rattle.report_text.specs.Reading.{IsBadAt};
ghost use Rattle.online_check.specs.AnyReport.{IsAnyBadAt};
ghost use Rattle.command_files.specs.Reports.{IsJournalOf, IsAnyReportOf, IsReportOf};
ghost use Rattle.command_files.specs.Ends.{CountsFault};
ghost use Rattle.command_files.specs.FileCauses.{IsFileCause};
ghost use Rattle.command_files.specs.InputCauses.{GiveTable, HasInputCause};
ghost use Rattle.command_files.specs.Inputs.{IsInput, IsTraceOf, IsWeightsOf, bytes_if};
ghost use Rattle.command_files.specs.OrderCauses.{IsOrderCause};
ghost use Rattle.command_files.specs.Orders.{IsOrderOf};
ghost use Rattle.command_files.specs.ReportCauses.{IsReportCause};
ghost use Rattle.command_files.specs.ScriptCauses.{IsScriptCause};
ghost use Rattle.command_files.specs.Scripts.{IsScriptOf};
ghost use Rattle.command_files.specs.Shelves.{AreReadOut, HasBytes, IsAsBefore, IsReadOut, IsReadOutIf, KeepsFiles, KeepsOthers, OfBoth};
ghost use Rattle.command_files.specs.TraceCauses.{IsTraceCause};
ghost use Rattle.command_files.specs.Turns.{InputInTurn};
ghost use Rattle.command_files.specs.WeightsCauses.{IsWeightsCause};

use crate::status::Status;
use coflow_units::{Items, MAX_REPORT, MAX_TEXT, NoMemory, Quantity, Trace, UnitSize};
use flow_table::{Table, TableFault};
use live_text::{Live, read_live};
use online_check::{AnyReport, read_any_report};
use orders::{OrderFault, read_order};
use outside::{Place4, ReadStop, Shelf, read_all};
use report_text::{Report, ReportFault, read_report};
use std::alloc::Global;
use trace_reader::{TraceFault, read_trace};
use weights::{WeightsFault, read_weights};
use workload::{Script, ScriptFault, read_script};

/// The flows of a trace, and the weight of each of its coflows.
#[derive(Drop)]
pub struct Input {
    pub table: Table,
    pub weights: Items<u64>,
}

/// Reads the trace under a name, the weights under another where one is given, and makes the table of flows with units
/// of that size. The error is the status that says why there is none.
pub fn read_input<H: Shelf>(
    alloc: Global,
    name: &str,
    weights_name: Option<&str>,
    unit: UnitSize,
    shelf: &mut H,
) -> Result<Input, Status>
    ensures input { IfOk result (λ i. IsInput (H.told shelf.old) name.now
        (option_map (λ s. s.now) weights_name.entry) unit.megabytes i.table i.weights) }
    ensures table { OnOk result (IfSome (H.told shelf.old) (λ t.
        GiveTable (bytes_of t name.now) (bytes_if t (option_map (λ s. s.now) weights_name.entry)) unit.megabytes)) }
    ensures read_out { OnOk result (OfBoth (H.told shelf.old) (H.told shelf.new)
        (AreReadOut name.now (option_map (λ s. s.now) weights_name.entry))) }
    ensures in_turn { IfErr result (λ status. OfBoth (H.told shelf.old) (H.told shelf.new)
        (InputInTurn name.now (option_map (λ s. s.now) weights_name.entry) status)) }
    ensures no_report { OfBoth (H.told shelf.old) (H.told shelf.new) (IsAsBefore Place4.Report) }
    ensures no_script { OfBoth (H.told shelf.old) (H.told shelf.new) (IsAsBefore Place4.Script) }
    ensures keeps { KeepsFiles (H.told shelf.old) (H.told shelf.new) }
    ensures later { H.faults shelf.old ≤ H.faults shelf.new }
    ensures counts { CountsFault (H.faults shelf.old) (H.faults shelf.new) result }
    ensures cause { IfErr result
        (HasInputCause (H.faults shelf.old) (H.faults shelf.new) (H.told shelf.old) (H.told shelf.new) name.now
        (option_map (λ s. s.now) weights_name.entry) unit.megabytes) }
{
    let trace = trace_of_file(alloc, name, shelf)?;
    let weights = weights_of_file(alloc, weights_name, &trace, shelf)?;
    let table = Table::build(alloc, &trace, unit.megabytes)?;
    Ok(Input { table, weights })
}

/// The trace of a file.
fn trace_of_file<H: Shelf>(alloc: Global, name: &str, shelf: &mut H) -> Result<Trace, Status>
    ensures trace { IfOk result (IsTraceOf (H.told shelf.old) name.now) }
    ensures read_out { OnOk result (OfBoth (H.told shelf.old) (H.told shelf.new) (IsReadOut Place4.Trace name.now)) }
    ensures others { OfBoth (H.told shelf.old) (H.told shelf.new) (KeepsOthers Place4.Trace) }
    ensures keeps { KeepsFiles (H.told shelf.old) (H.told shelf.new) }
    ensures later { H.faults shelf.old ≤ H.faults shelf.new }
    ensures counts { CountsFault (H.faults shelf.old) (H.faults shelf.new) result }
    ensures cause { IfErr result
        (IsTraceCause (H.faults shelf.old) (H.faults shelf.new) (H.told shelf.old) (H.told shelf.new) name.now) }
{
    let bytes = read_file(alloc, Place4::Trace, name, MAX_TEXT, shelf)?;
    let trace = read_trace(alloc, &bytes)?;
    Ok(trace)
}

/// The weights of the coflows of a trace, by a file where there is one, and 1 each where there is none.
fn weights_of_file<H: Shelf>(
    alloc: Global,
    name: Option<&str>,
    trace: &Trace,
    shelf: &mut H,
) -> Result<Items<u64>, Status>
    ensures weights { IfOk result
        (IsWeightsOf (H.told shelf.old) (option_map (λ s. s.now) name.entry) trace.now.coflows) }
    ensures read_out { OnOk result (OfBoth (H.told shelf.old) (H.told shelf.new)
        (IsReadOutIf Place4.Weights (option_map (λ s. s.now) name.entry))) }
    ensures unnamed { option_map (λ s. s.now) name.entry ≡ None →
        OfBoth (H.told shelf.old) (H.told shelf.new) (IsAsBefore Place4.Weights) }
    ensures others { OfBoth (H.told shelf.old) (H.told shelf.new) (KeepsOthers Place4.Weights) }
    ensures keeps { KeepsFiles (H.told shelf.old) (H.told shelf.new) }
    ensures later { H.faults shelf.old ≤ H.faults shelf.new }
    ensures counts { CountsFault (H.faults shelf.old) (H.faults shelf.new) result }
    ensures cause { IfErr result
        (IsWeightsCause (H.faults shelf.old) (H.faults shelf.new) (H.told shelf.old) (H.told shelf.new)
        (option_map (λ s. s.now) name.entry) trace.now.coflows) }
{
    let Some(name) = name else {
        let weights = equal_weights(alloc, trace)?;
        return Ok(weights);
    };
    let bytes = read_file(alloc, Place4::Weights, name, MAX_TEXT, shelf)?;
    let weights = read_weights(alloc, &bytes, trace)?;
    Ok(weights)
}

/// Weight 1 for each coflow.
fn equal_weights(alloc: Global, trace: &Trace) -> Result<Items<u64>, NoMemory>
    ensures { IfOk result (λ weights. weights ≡ replicate (length trace.now.coflows) 1) }
{
    let weights = vec![in alloc; 1u64; trace.coflows.as_slice().len()]?;
    Ok(Items::from_vec(weights))
}

/// Reads the report under a name, that of a plan or of an online run. The error is the status that says why there is
/// none.
pub fn read_any_report_file<H: Shelf>(
    alloc: Global,
    name: &str,
    shelf: &mut H,
) -> Result<AnyReport, Status>
    ensures report { IfOk result (IsAnyReportOf (H.told shelf.old) name.now) }
    ensures read_out { OnOk result (OfBoth (H.told shelf.old) (H.told shelf.new) (IsReadOut Place4.Report name.now)) }
    ensures others { OfBoth (H.told shelf.old) (H.told shelf.new) (KeepsOthers Place4.Report) }
    ensures keeps { KeepsFiles (H.told shelf.old) (H.told shelf.new) }
    ensures counts { CountsFault (H.faults shelf.old) (H.faults shelf.new) result }
    ensures cause { IfErr result (IsReportCause IsAnyBadAt (H.faults shelf.old) (H.faults shelf.new)
        (H.told shelf.old) (H.told shelf.new) name.now) }
{
    let bytes = read_file(alloc, Place4::Report, name, MAX_REPORT, shelf)?;
    let report = read_any_report(alloc, &bytes)?;
    Ok(report)
}

/// Reads the report of a plan under a name. The error is the status that says why there is none.
pub fn read_report_file<H: Shelf>(
    alloc: Global,
    name: &str,
    shelf: &mut H,
) -> Result<Report, Status>
    ensures report { IfOk result (IsReportOf (H.told shelf.old) name.now) }
    ensures read_out { OnOk result (OfBoth (H.told shelf.old) (H.told shelf.new) (IsReadOut Place4.Report name.now)) }
    ensures others { OfBoth (H.told shelf.old) (H.told shelf.new) (KeepsOthers Place4.Report) }
    ensures keeps { KeepsFiles (H.told shelf.old) (H.told shelf.new) }
    ensures counts { CountsFault (H.faults shelf.old) (H.faults shelf.new) result }
    ensures cause { IfErr result (IsReportCause IsBadAt (H.faults shelf.old) (H.faults shelf.new)
        (H.told shelf.old) (H.told shelf.new) name.now) }
{
    let bytes = read_file(alloc, Place4::Report, name, MAX_REPORT, shelf)?;
    let report = read_report(alloc, &bytes)?;
    Ok(report)
}

/// Reads the printed journal under a name. The error is the status that says why there is none.
pub fn read_journal_file<H: Shelf>(alloc: Global, name: &str, shelf: &mut H) -> Result<Live, Status>
    ensures journal { IfOk result (IsJournalOf (H.told shelf.old) name.now) }
    ensures read_out { OnOk result (OfBoth (H.told shelf.old) (H.told shelf.new) (IsReadOut Place4.Report name.now)) }
    ensures others { OfBoth (H.told shelf.old) (H.told shelf.new) (KeepsOthers Place4.Report) }
    ensures keeps { KeepsFiles (H.told shelf.old) (H.told shelf.new) }
    ensures counts { CountsFault (H.faults shelf.old) (H.faults shelf.new) result }
    ensures cause { IfErr result (IsReportCause IsBadJournalAt (H.faults shelf.old) (H.faults shelf.new)
        (H.told shelf.old) (H.told shelf.new) name.now) }
{
    let bytes = read_file(alloc, Place4::Report, name, MAX_REPORT, shelf)?;
    let live = read_live(alloc, &bytes)?;
    Ok(live)
}

/// Reads the order under a name, of the coflows of a table: their numbers, first served first. The error is the status
/// that says why there is none.
pub fn read_order_file<H: Shelf>(
    alloc: Global,
    name: &str,
    table: &Table,
    shelf: &mut H,
) -> Result<Items<u32>, Status>
    ensures order { IfOk result (IsOrderOf (H.told shelf.old) name.now table.now.ids) }
    ensures read_out { OnOk result (OfBoth (H.told shelf.old) (H.told shelf.new) (IsReadOut Place4.Report name.now)) }
    ensures others { OfBoth (H.told shelf.old) (H.told shelf.new) (KeepsOthers Place4.Report) }
    ensures keeps { KeepsFiles (H.told shelf.old) (H.told shelf.new) }
    ensures counts { CountsFault (H.faults shelf.old) (H.faults shelf.new) result }
    ensures cause { IfErr result (IsOrderCause table.now.ids (H.faults shelf.old) (H.faults shelf.new)
        (H.told shelf.old) (H.told shelf.new) name.now) }
{
    let bytes = read_file(alloc, Place4::Report, name, MAX_TEXT, shelf)?;
    let order = read_order(alloc, &bytes, table)?;
    Ok(order)
}

/// Reads the script under a name, over the coflows of a table. The error is the status that says why there is none.
pub fn read_script_file<H: Shelf>(
    alloc: Global,
    name: &str,
    table: &Table,
    shelf: &mut H,
) -> Result<Script, Status>
    ensures script { IfOk result (IsScriptOf (H.told shelf.old) name.now table.now.ids) }
    ensures read_out { OnOk result (OfBoth (H.told shelf.old) (H.told shelf.new) (IsReadOut Place4.Script name.now)) }
    ensures others { OfBoth (H.told shelf.old) (H.told shelf.new) (KeepsOthers Place4.Script) }
    ensures keeps { KeepsFiles (H.told shelf.old) (H.told shelf.new) }
    ensures counts { CountsFault (H.faults shelf.old) (H.faults shelf.new) result }
    ensures cause { IfErr result (IsScriptCause table.now.ids (H.faults shelf.old) (H.faults shelf.new)
        (H.told shelf.old) (H.told shelf.new) name.now) }
{
    let bytes = read_file(alloc, Place4::Script, name, MAX_TEXT, shelf)?;
    let script = read_script(alloc, &bytes, table)?;
    Ok(script)
}

/// The bytes of a file of at most `most` bytes.
fn read_file<H: Shelf>(
    alloc: Global,
    place: Place4,
    name: &str,
    most: usize,
    shelf: &mut H,
) -> Result<Vec<u8>, Status>
    requires { most ≤ MAX_REPORT }
    ensures bytes { IfOk result (λ bytes. HasBytes (H.told shelf.old) name.now bytes.items) }
    ensures short { IfOk result (λ bytes. length bytes.items ≤ most) }
    ensures read_out { OnOk result (OfBoth (H.told shelf.old) (H.told shelf.new) (IsReadOut place name.now)) }
    ensures others { OfBoth (H.told shelf.old) (H.told shelf.new) (KeepsOthers place) }
    ensures keeps { KeepsFiles (H.told shelf.old) (H.told shelf.new) }
    ensures later { H.faults shelf.old ≤ H.faults shelf.new }
    ensures counts { CountsFault (H.faults shelf.old) (H.faults shelf.new) result }
    ensures cause { IfErr result
        (IsFileCause most (H.faults shelf.old) (H.faults shelf.new) (H.told shelf.old) (H.told shelf.new) name.now) }
{
    let Ok(()) = shelf.start(place, name) else {
        return Err(Status::ReadFault { count: 1 });
    };
    match read_all(alloc, shelf, place, most) {
        Ok(bytes) => Ok(bytes),
        Err(ReadStop::Fault) => Err(Status::ReadFault { count: 1 }),
        Err(ReadStop::TooLong) => Err(Status::Limit {
            which: Quantity::Text,
            count: most as u64 + 1,
        }),
        Err(ReadStop::NoMemory) => Err(Status::NoMemory),
    }
}

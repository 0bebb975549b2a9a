//! The trace, the weights of its coflows, and a script.
ghost use Rattle.std.specs.Prelude.{◌≡◌, IfErr, IfOk, IfSome, OnOk, option_map};
ghost use Rattle.coflow_units.specs.declared.quantity.Quantity.TheVariants.{Units};
ghost use Rattle.command_words.specs.Jobs.Job.{live_job};
ghost use Rattle.command_words.specs.Words.{said_with};
ghost use Rattle.command_files.specs.declared.status.Status.TheVariants.{Limit};
ghost use Rattle.command_files.specs.Causes.{FilesGiveScript, HasCauseInFiles};
ghost use Rattle.command_files.specs.Ends.{CountsFault};
ghost use Rattle.command_files.specs.Inputs.{IsInput};
ghost use Rattle.command_files.specs.Scripts.{HasMoreUnits, IsScriptOf, IsShared, table_units};
ghost use Rattle.command_files.specs.Shelves.{KeepsFiles, OfBoth, ReadsOut};
ghost use Rattle.command_files.specs.Turns.{FilesInTurn};
ghost use Rattle.online_check.specs.AnyReport.{IsAnyBadAt};

use crate::inputs::{Input, read_input, read_script_file};
use crate::status::Status;
use coflow_units::{MAX_LIVE_UNITS, Quantity};
use command_words::Options;
use flow_table::Table;
use outside::Shelf;
use std::alloc::Global;
use workload::Script;

/// The flows of a trace with the weight of each of its coflows, and a script of what clients ask.
#[derive(Drop)]
pub struct LiveInput {
    pub input: Input,
    pub script: Script,
}

/// Reads the files of the command `live`: the trace and, where one is named, the weights, makes the table, which may
/// have 2^20 units, and then reads the script over its coflows. The error is the status that says why there is none:
/// the first of the trace, of the weights, of the table, of its units (`Limit` of `Units` with their number) and of the
/// script.
pub fn read_live_files<'a, H: Shelf>(
    alloc: Global,
    trace: &str,
    script: &str,
    options: Options<'a>,
    shelf: &mut H,
) -> Result<LiveInput, Status>
    ensures input { IfOk result (λ l. IsInput (H.told shelf.old) trace.now
        (option_map (λ s. s.now) options.entry.weights) options.entry.unit.megabytes l.input.table l.input.weights) }
    ensures shared { IfOk result (λ l. IsShared l.input.table) }
    ensures script { IfOk result (λ l. IsScriptOf (H.told shelf.old) script.now l.input.table.ids l.script) }
    ensures read_out { OnOk result (OfBoth (H.told shelf.old) (H.told shelf.new)
        (ReadsOut (live_job trace.now script.now) (said_with (live_job trace.now script.now) options.entry))) }
    ensures good { OnOk result (IfSome (H.told shelf.old)
        (FilesGiveScript (said_with (live_job trace.now script.now) options.entry))) }
    ensures in_turn { IfErr result (λ status. OfBoth (H.told shelf.old) (H.told shelf.new)
        (FilesInTurn (said_with (live_job trace.now script.now) options.entry) status)) }
    ensures keeps { KeepsFiles (H.told shelf.old) (H.told shelf.new) }
    ensures counts { CountsFault (H.faults shelf.old) (H.faults shelf.new) result }
    ensures cause { IfErr result (λ status. HasCauseInFiles IsAnyBadAt (H.faults shelf.old) (H.faults shelf.new)
        (H.told shelf.old) (H.told shelf.new) (said_with (live_job trace.now script.now) options.entry) status) }
{
    let input = read_input(alloc, trace, options.weights, options.unit, shelf)?;
    share(&input.table)?;
    let script = read_script_file(alloc, script, &input.table, shelf)?;
    Ok(LiveInput { input, script })
}

/// `Limit` of `Units` where the table has more units than clients may share live.
fn share(table: &Table) -> Result<(), Status>
    ensures shared { OnOk result (IsShared table.now) }
    ensures limit { IfErr result (λ status. (status ≡ Limit Units (table_units table.now))
        × HasMoreUnits table.now (table_units table.now)) }
{
    let count = units_of(table);
    if count > MAX_LIVE_UNITS {
        return Err(Status::Limit {
            which: Quantity::Units,
            count,
        });
    }
    Ok(())
}

/// How many units the flows of the table have together.
fn units_of(table: &Table) -> u64
    ensures { result ≡ table_units table.now }
{
    let mut count = 0u64;
    for flow in table.flows() {
        count = count.saturating_add(flow.units);
    }
    count
}

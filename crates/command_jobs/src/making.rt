//! The command `make`: the plan of a made trace, read back and checked.
ghost use Rattle.std.specs.Prelude.{◌≡◌, ◌≤◌, ◌<◌, ◌^◌, ◌⊎◌, ℕ, All, IfErr, IfOk, None, length, sum_by};
ghost use Rattle.coflow_units.specs.declared.limits.TheConstants.{MAX_PORTS, MAX_REPORT, MAX_TEXT, MAX_UNITS, MAX_WEIGHT};
ghost use Rattle.cert_check.specs.Sound.{IsSound};
ghost use Rattle.coflow_units.specs.declared.fabric.Flow.{Flow};
ghost use Rattle.coflow_units.specs.declared.quantity.Quantity.{Quantity};
ghost use Rattle.coflow_units.specs.Flows.{IsDistinct};
ghost use Rattle.coflow_units.specs.Trace.{IsTrace};
ghost use Rattle.flow_table.specs.Causes.{HasCause};
ghost use Rattle.flow_table.specs.declared.fault.TableFault.{TableFault};
ghost use Rattle.flow_table.specs.Table.{IsTable, IsTableOf, instance_of};
ghost use Rattle.report_text.specs.declared.value.Report.{Report};
ghost use Rattle.report_text.specs.Made.{made_text};
ghost use Rattle.report_text.specs.Reading.{IsTextOf};
ghost use Rattle.report_text.specs.Report.{HasSmallNumbers, IsReport};
ghost use Rattle.report_text.specs.Text.{report_text};
ghost use Rattle.text_fields.specs.Checks.{first_fault};
ghost use Rattle.trace_reader.specs.Trace.{trace_checks, trace_of};
ghost use Rattle.weights.specs.Weights.{text_checks, weights_of};
ghost use Rattle.command_jobs.specs.Make.{GivesMade, HasMadeCause, MadeOf, summary_of};
ghost use Rattle.hall_plan.specs.Sent.{SendsAll};
ghost use Rattle.command_files.specs.WireCauses.{IsWireCause};
ghost use Rattle.command_jobs.specs.Serving.{Sends, ServesMade, Stops};

use crate::serving::serve;
use cert_check::Verdict;
use coflow_units::{Flow, Items, NoMemory, Trace, UnitSize};
use command_files::{Input, Outcome, Status};
use command_words::Options;
use flow_table::{Table, TableFault};
use online_check::verdict_on;
use outside::Wire;
use report_text::{Made, Report, ReportFault, Text, read_report, write_made, write_report};
use std::alloc::Global;
use std::sync::Wait;
use std::thread::Threads;
use trace_reader::{TraceFault, read_trace};
use weights::{WeightsFault, read_weights};
use workload::made;

/// The summary of the plan of the trace that is made from a seed, whose units were sent on the wires, and whose report
/// was read back and found right. There is one where there is memory and no wire fails.
pub fn make_workload<'a, R: Threads + Wait + Sync, W: Wire + Send>(
    rt: &R,
    alloc: Global,
    seed: u64,
    options: Options<'a>,
    wires: &mut Vec<W>,
) -> Result<Outcome, Status>
    requires wires { MAX_PORTS < length wires.old.items }
    ensures outcome { IfOk result (λ o. (o.status ≡ Status.Ok) ×
        MadeOf (SendsAll W.runs wires.old.items wires.new.items) seed options.entry.unit.megabytes
        o.text) }
    ensures sent { (wires.new.items ≡ wires.old.items) ⊎ ServesMade (Sends W.runs wires.old.items wires.new.items)
        seed options.entry.unit.megabytes }
    ensures cause { IfErr result (λ status. HasMadeCause status ⊎ IsWireCause
        (λ port. ServesMade (Stops W.faults W.runs wires.old.items wires.new.items port) seed
        options.entry.unit.megabytes) status) }
{
    let input = made_input(alloc, seed, options.unit)?;
    let planned = serve(rt, alloc, &input, options.agents as u32, wires)?;
    let Ok(report) = written_and_read(alloc, planned) else {
        drop(input);
        return Err(Status::NoMemory);
    };
    let told = summary(alloc, seed, &input, &report);
    drop(input);
    drop(report);
    let text = told?;
    Ok(Outcome {
        text: Text::of_bytes(text),
        status: Status::Ok,
    })
}

/// The flows and the weights of the texts of a seed. They are read as files are.
fn made_input(alloc: Global, seed: u64, unit: UnitSize) -> Result<Input, NoMemory>
    ensures gives { IfOk result (λ i. GivesMade seed unit.megabytes i.table i.weights) }
    ensures table { IfOk result (λ i. IsTable i.table) }
    ensures units { IfOk result (λ i. sum_by (λ (x : Flow). x.units) i.table.flows ≤ 102400) }
    ensures ids { IfOk result (λ i. IsDistinct i.table.ids) }
    ensures count { IfOk result (λ i. length i.weights ≡ length i.table.ids) }
    ensures least { IfOk result (λ i. All (λ w. 1 ≤ w) i.weights) }
    ensures most { IfOk result (λ i. All (λ w. w ≤ MAX_WEIGHT) i.weights) }
{
    let made = made(alloc, seed)?;
    let Ok(trace) = trace_of_text(alloc, made.trace.as_slice()) else {
        drop(made);
        return Err(NoMemory);
    };
    let read = weights_of_text(alloc, made.weights.as_slice(), &trace);
    drop(made);
    let Ok(weights) = read else {
        drop(trace);
        return Err(NoMemory);
    };
    let built = small_table(alloc, &trace, unit);
    drop(trace);
    let Ok(table) = built else {
        drop(weights);
        return Err(NoMemory);
    };
    Ok(Input { table, weights })
}

/// The trace of a text that has no fault.
fn trace_of_text(alloc: Global, text: &[u8]) -> Result<Trace, NoMemory>
    requires short { length text.now ≤ MAX_TEXT }
    requires passes { first_fault (trace_checks text.now) ≡ None }
    ensures trace { IfOk result (λ trace. trace ≡ trace_of text.now) }
    ensures fits { IfOk result IsTrace }
{
    match read_trace(alloc, text) {
        Ok(trace) => Ok(trace),
        Err(fault) => {
            prove!(matches!(&fault, TraceFault::NoMemory));
            Err(NoMemory)
        }
    }
}

/// The weights of a text that has no fault.
fn weights_of_text(alloc: Global, text: &[u8], trace: &Trace) -> Result<Items<u64>, NoMemory>
    requires short { length text.now ≤ MAX_TEXT }
    requires passes { first_fault (text_checks text.now trace.now.coflows) ≡ None }
    ensures { IfOk result (λ weights. weights ≡ weights_of text.now trace.now.coflows) }
{
    match read_weights(alloc, text, trace) {
        Ok(weights) => Ok(weights),
        Err(fault) => {
            prove!(matches!(&fault, WeightsFault::NoMemory));
            Err(NoMemory)
        }
    }
}

/// The table of the flows of a trace that has neither too many units nor too many flows.
fn small_table(alloc: Global, trace: &Trace, unit: UnitSize) -> Result<Table, NoMemory>
    requires trace { IsTrace trace.now }
    requires fits { (which : Quantity) (count : ℕ) →
        HasCause trace.now unit.megabytes (TableFault.Limit which count) → ⊥ }
    ensures of { IfOk result (IsTableOf trace.now unit.megabytes) }
    ensures table { IfOk result IsTable }
{
    match Table::build(alloc, trace, unit.megabytes) {
        Ok(table) => Ok(table),
        Err(TableFault::Limit { which: _, count: _ }) => unreachable!(),
        Err(TableFault::NoMemory) => Err(NoMemory),
    }
}

/// The report, read back from its own text.
fn written_and_read(alloc: Global, report: Report) -> Result<Report, NoMemory>
    requires report { IsReport report }
    requires small { HasSmallNumbers report }
    requires few { length (report_text report) ≤ MAX_REPORT }
    ensures { IfOk result (λ read. read ≡ report) }
{
    let text = write_report(alloc, report)?;
    let written = text.bytes(alloc);
    drop(text);
    let bytes = written?;
    let read = read_back(alloc, &bytes)?;
    Ok(read)
}

/// The report whose text the bytes are.
fn read_back(alloc: Global, text: &[u8]) -> Result<Report, NoMemory>
    requires few { length text.now ≤ MAX_REPORT }
    requires written { (r : Report) × IsTextOf text.now r }
    ensures { IfOk result (IsTextOf text.now) }
{
    match read_report(alloc, text) {
        Ok(report) => Ok(report),
        Err(ReportFault::BadText { line: _ }) => unreachable!(),
        Err(ReportFault::NoMemory) => Err(NoMemory),
    }
}

/// The text of the summary, where the check of the report answers yes.
fn summary(alloc: Global, seed: u64, input: &Input, report: &Report) -> Result<Vec<u8>, NoMemory>
    requires count { length input.now.weights ≡ length input.now.table.ids }
    requires weights { All (λ w. w ≤ MAX_WEIGHT) input.now.weights }
    requires report { IsReport report.now }
    requires sound { IsSound (instance_of input.now.table input.now.weights) input.now.table.ids report.now }
    ensures { IfOk result (λ text. text.items ≡ made_text (summary_of seed input.now.table report.now)) }
{
    match verdict_on(alloc, &input.table, input.weights.as_slice(), report)? {
        Verdict::Yes => {}
        Verdict::No(_) => unreachable!(),
    }
    let flows = input.table.flows();
    let made = Made {
        seed,
        flows: flows.len() as u32,
        units: units_in(flows),
        bound: report.bound,
        slack: report.slack,
        cost: report.cost,
    };
    let text = write_made(alloc, &made)?;
    Ok(text)
}

/// The units of all flows.
fn units_in(flows: &[Flow]) -> u64
    requires { sum_by (λ (x : Flow). x.units) flows.now ≤ MAX_UNITS }
    ensures { result ≡ sum_by (λ (x : Flow). x.units) flows.now }
{
    flows.iter().map(|flow| flow.units).sum()
}

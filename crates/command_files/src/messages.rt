//! The line on standard error.
ghost use Rattle.std.specs.Prelude.{◌≡◌};
ghost use Rattle.std.specs.Fmt.{WritesOnOk};
ghost use Rattle.command_files.specs.Messages.{limit_text, name_of, order_text, trace_text, weights_text};

use crate::status::Status;
use coflow_units::Quantity;
use orders::OrderFault;
use std::fmt;
use trace_reader::TraceFault;
use weights::WeightsFault;

/// What the program prints on standard error behind its name, where its exit code is above 1.
impl fmt::Display for Status {
    ghost use Rattle.std.specs.Prelude.{Some};
    ghost use Rattle.command_files.specs.Messages.{status_text};

    ghost output = { λ s. Some (status_text s) };

    fn fmt<W: fmt::Write>(&self, f: &mut fmt::Formatter<W>) -> fmt::Result {
        match self {
            Status::Ok | Status::No => Ok(()),
            Status::Usage => f.write_str("usage: sincronia COMMAND FIRST [SECOND] [options]"),
            Status::BadTrace(fault) => write_trace_fault(f, *fault),
            Status::BadWeights(fault) => write_weights_fault(f, *fault),
            Status::BadReport { line } => write!(f, "report: line {line}"),
            Status::BadScript { line, field } => write!(f, "script: line {line} field {field}"),
            Status::Limit { which, count } => write_limit(f, *which, *count),
            Status::ReadFault { count: _ } => f.write_str("read fault"),
            Status::WriteFault { count: _ } => f.write_str("write fault"),
            Status::WireFault { port, count: _ } => write!(f, "wire fault at port {port}"),
            Status::NoMemory => f.write_str("no memory"),
            Status::BadOrder(fault) => write_order_fault(f, *fault),
            Status::UnknownPolicy => f.write_str("policy: no ranker of this name"),
        }
    }
}

/// What is wrong with a trace.
fn write_trace_fault<W: fmt::Write>(f: &mut fmt::Formatter<W>, fault: TraceFault) -> fmt::Result
    ensures { WritesOnOk W.write_str_gives f.old result (trace_text fault) f.new }
{
    match fault {
        TraceFault::BadHeader => f.write_str("trace: bad header"),
        TraceFault::BadLine { line, field } => write!(f, "trace: line {line} field {field}"),
        TraceFault::Missing { have, want } => write!(f, "trace: have {have} lines, want {want}"),
        TraceFault::Extra { line } => write!(f, "trace: extra line {line}"),
        TraceFault::DuplicateId { line, id } => write!(f, "trace: line {line} repeats id {id}"),
        TraceFault::PortRange { line, port } => {
            write!(f, "trace: line {line} port {port} out of range")
        }
        TraceFault::Limit {
            line: _,
            which,
            count,
        } => write_limit(f, which, count),
        TraceFault::NoMemory => f.write_str("no memory"),
    }
}

/// What is wrong with weights.
fn write_weights_fault<W: fmt::Write>(f: &mut fmt::Formatter<W>, fault: WeightsFault) -> fmt::Result
    ensures { WritesOnOk W.write_str_gives f.old result (weights_text fault) f.new }
{
    match fault {
        WeightsFault::BadLine { line, field } => write!(f, "weights: line {line} field {field}"),
        WeightsFault::UnknownId { line, id } => write!(f, "weights: line {line} unknown id {id}"),
        WeightsFault::DuplicateId { line, id } => {
            write!(f, "weights: line {line} repeats id {id}")
        }
        WeightsFault::Limit {
            line: _,
            which,
            count,
        } => write_limit(f, which, count),
        WeightsFault::NoMemory => f.write_str("no memory"),
    }
}

/// What is wrong with an order.
fn write_order_fault<W: fmt::Write>(f: &mut fmt::Formatter<W>, fault: OrderFault) -> fmt::Result
    ensures { WritesOnOk W.write_str_gives f.old result (order_text fault) f.new }
{
    match fault {
        OrderFault::BadLine { line, field } => write!(f, "order: line {line} field {field}"),
        OrderFault::UnknownId { line, id } => write!(f, "order: line {line} unknown id {id}"),
        OrderFault::DuplicateId { line, id } => write!(f, "order: line {line} repeats id {id}"),
        OrderFault::Missing { have, want } => write!(f, "order: have {have} lines, want {want}"),
        OrderFault::NoMemory => f.write_str("no memory"),
    }
}

/// A limit, with what was found.
fn write_limit<W: fmt::Write>(f: &mut fmt::Formatter<W>, which: Quantity, count: u64) -> fmt::Result
    ensures { WritesOnOk W.write_str_gives f.old result (limit_text which count) f.new }
{
    let name = name_of(which);
    write!(f, "limit: {name} {count}")
}

/// The name of a quantity.
fn name_of(which: Quantity) -> &'static str
    ensures { result.now ≡ name_of which }
{
    match which {
        Quantity::Text => "text",
        Quantity::Ports => "ports",
        Quantity::Coflows => "coflows",
        Quantity::Id => "id",
        Quantity::Arrival => "arrival",
        Quantity::Mappers => "mappers",
        Quantity::Reducers => "reducers",
        Quantity::Megabytes => "megabytes",
        Quantity::Weight => "weight",
        Quantity::Units => "units",
        Quantity::Flows => "flows",
        Quantity::Clients => "clients",
        Quantity::Commands => "commands",
        Quantity::Epochs => "epochs",
    }
}

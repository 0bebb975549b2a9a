//! What a command has to write, and how the program's job ended.
ghost use Rattle.command_files.specs.Code.{code_of};
ghost use Rattle.std.specs.Prelude.{◌≡◌};

use coflow_units::{NoMemory, Quantity};
use flow_table::TableFault;
use hall_plan::PlanFault;
use orders::OrderFault;
use report_text::{ReportFault, Text};
use trace_reader::TraceFault;
use weights::WeightsFault;
use workload::ScriptFault;

/// How the job ended. The `count` of a fault of shelf, sink or wire is the number of calls that failed, which is 1: the
/// first one ends the job. Of wires further ones may have failed in the same run.
#[derive(Clone, Copy, Debug, PartialEq, Eq)]
pub enum Status {
    /// The text was written whole. The answer of `check` or `audit` is yes.
    Ok,
    /// The report or the printed journal is not right, and the line with the first reason was written whole; or the
    /// ranker whose replay is to be recorded answered a question with no order, and the report of its replay was
    /// written whole.
    No,
    /// The words are no command.
    Usage,
    /// The file is no trace. The fault is the first in reading order, and one of form.
    BadTrace(TraceFault),
    /// The file is no weights of the trace's coflows. The fault is the first in reading order, and one of form.
    BadWeights(WeightsFault),
    /// The file is no report of the kind that its first line tells, or, for `audit`, no printed journal. No text of
    /// such a kind has this line, counted from 1, after the lines before it.
    BadReport { line: u32 },
    /// The file is no script over the trace's coflows. The fault is the first in reading order, and one of form: lines
    /// and fields count from 1.
    BadScript { line: u32, field: u32 },
    /// A counted quantity is outside its range. The count is told as 2^64 - 1 where it is greater. Of the bytes of a
    /// text, of flows and of epochs, which are the orders of an online run, it is one more than the limit.
    Limit { which: Quantity, count: u64 },
    /// A call to the shelf failed.
    ReadFault { count: u32 },
    /// A call to the sink failed. A beginning of the text was written.
    WriteFault { count: u32 },
    /// The wire of this ingress port did not accept a unit. For a plan it is the least port at which a unit of the last
    /// run is missing.
    WireFault { port: u32, count: u32 },
    /// No memory was to be had.
    NoMemory,
    /// The file is no order of the trace's coflows. The fault is the first in reading order, and one of form.
    BadOrder(OrderFault),
    /// The option `--policy` of `replay` names no ranker of the bench. No file was looked at.
    UnknownPolicy,
}

impl Status {
    /// The exit code of the program.
    pub fn code(&self) -> u8
        ensures { result ≡ code_of self.now }
    {
        match self {
            Status::Ok => 0,
            Status::No => 1,
            Status::Usage => 2,
            Status::BadTrace(_) => 3,
            Status::BadWeights(_) => 4,
            Status::BadReport { line: _ } => 5,
            Status::BadScript { line: _, field: _ } => 6,
            Status::Limit { which: _, count: _ } => 7,
            Status::ReadFault { count: _ } => 8,
            Status::WriteFault { count: _ } => 9,
            Status::WireFault { port: _, count: _ } => 10,
            Status::NoMemory => 11,
            Status::BadOrder(_) => 12,
            Status::UnknownPolicy => 13,
        }
    }
}

impl From<NoMemory> for Status {
    ghost use Rattle.command_files.specs.declared.status.Status.TheVariants.{NoMemory};

    ghost from_gives = { λ _ e. e ≡ NoMemory };

    fn from(_fault: NoMemory) -> Status {
        Status::NoMemory
    }
}

impl From<TraceFault> for Status {
    ghost use Rattle.command_files.specs.Faults.{IsStatusOfTrace};

    ghost from_gives = { λ fault status. IsStatusOfTrace fault status };

    fn from(fault: TraceFault) -> Status {
        match fault {
            TraceFault::Limit {
                line: _,
                which,
                count,
            } => Status::Limit { which, count },
            TraceFault::NoMemory => Status::NoMemory,
            fault => Status::BadTrace(fault),
        }
    }
}

impl From<WeightsFault> for Status {
    ghost use Rattle.command_files.specs.Faults.{IsStatusOfWeights};

    ghost from_gives = { λ fault status. IsStatusOfWeights fault status };

    fn from(fault: WeightsFault) -> Status {
        match fault {
            WeightsFault::Limit {
                line: _,
                which,
                count,
            } => Status::Limit { which, count },
            WeightsFault::NoMemory => Status::NoMemory,
            fault => Status::BadWeights(fault),
        }
    }
}

impl From<TableFault> for Status {
    ghost use Rattle.command_files.specs.Faults.{IsStatusOfTable};

    ghost from_gives = { λ fault status. IsStatusOfTable fault status };

    fn from(fault: TableFault) -> Status {
        match fault {
            TableFault::Limit { which, count } => Status::Limit { which, count },
            TableFault::NoMemory => Status::NoMemory,
        }
    }
}

impl From<PlanFault> for Status {
    ghost use Rattle.command_files.specs.Faults.{IsStatusOfPlan};

    ghost from_gives = { λ fault status. IsStatusOfPlan fault status };

    fn from(fault: PlanFault) -> Status {
        match fault {
            PlanFault::WireFault { port } => Status::WireFault { port, count: 1 },
            PlanFault::NoMemory => Status::NoMemory,
        }
    }
}

impl From<ReportFault> for Status {
    ghost use Rattle.command_files.specs.Faults.{IsStatusOfReport};

    ghost from_gives = { λ fault status. IsStatusOfReport fault status };

    fn from(fault: ReportFault) -> Status {
        match fault {
            ReportFault::BadText { line } => Status::BadReport { line },
            ReportFault::NoMemory => Status::NoMemory,
        }
    }
}

impl From<OrderFault> for Status {
    ghost use Rattle.command_files.specs.Faults.{IsStatusOfOrder};

    ghost from_gives = { λ fault status. IsStatusOfOrder fault status };

    fn from(fault: OrderFault) -> Status {
        match fault {
            OrderFault::NoMemory => Status::NoMemory,
            fault => Status::BadOrder(fault),
        }
    }
}

impl From<ScriptFault> for Status {
    ghost use Rattle.command_files.specs.Faults.{IsStatusOfScript};

    ghost from_gives = { λ fault status. IsStatusOfScript fault status };

    fn from(fault: ScriptFault) -> Status {
        match fault {
            ScriptFault::Bad { line, field } => Status::BadScript { line, field },
            ScriptFault::Limit { which, count } => Status::Limit { which, count },
            ScriptFault::NoMemory => Status::NoMemory,
        }
    }
}

/// The text that a command writes, and the status of the job once the text is written whole.
#[derive(Drop)]
pub struct Outcome {
    pub text: Text,
    pub status: Status,
}

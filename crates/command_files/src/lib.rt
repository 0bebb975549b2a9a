//! The files of a command, and how its job ended: the trace, the weights of its coflows, and a report, a printed
//! journal, an order or a script.
#![tactic(auto)]

mod inputs;
mod lives;
mod messages;
mod status;

pub use inputs::{
    Input, read_any_report_file, read_input, read_journal_file, read_order_file, read_report_file,
    read_script_file,
};
pub use lives::{LiveInput, read_live_files};
pub use status::{Outcome, Status};

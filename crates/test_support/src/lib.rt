//! What tests and games share: tables of flows from the texts of traces and from files, small halls, and small runs in
//! them.
#![tactic(auto)]

mod asks;
mod begun;
mod closed;
mod fault;
mod file;
mod small;
mod small_run;
mod table;

pub use asks::{Ask, Said, answered};
pub use begun::{let_master_go, let_session_go, master_of_two};
pub use fault::{FileFault, TextFault};
pub use file::{bytes_of_file, table_of_file};
pub use small::{SmallHall, SmallSize};
pub use small_run::SmallRun;
pub use table::table_of_text;

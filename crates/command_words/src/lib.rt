//! Reads the words of a command line: the job, which is a command with the names behind it, and the options.
#![tactic(auto)]

mod arguments;
mod fault;
mod job;
pub mod laws;
mod options;
mod parser;
mod values;
mod words;

pub use arguments::{fault_by, flag_named, name_of, needed_name, option_named, with_arg};
pub use fault::WordsFault;
pub use job::Job;
pub use options::{MAX_OPTION_AGENTS, MAX_OPTION_CLASSES, Options};
pub use values::{is_file_name, is_used, setting_of, unit_of};
pub use words::{Words, read_words};

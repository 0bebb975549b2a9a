//! Reports of plans, written and read strictly, and the lists of comparisons, classes and made plans. Each value has
//! one text, and each text of a report stands for at most one report. Other crates write their texts with the calls
//! that write numbers, and end them with the runs of a `Text`.
#![tactic(auto)]

mod classed;
mod compared;
mod draft;
mod fault;
pub mod laws;
mod lines;
mod made;
mod numbers;
mod parts;
mod piece;
mod reading;
mod text;
mod text_bytes;
mod text_writer;
mod value;
mod writing;

pub use classed::{ClassText, Member, write_classes};
pub use compared::{Compare, RowLine, RowText, write_compare};
pub use fault::ReportFault;
pub use lines::{count_then, line_then, number_then, side_then};
pub use made::{Made, write_made};
pub use numbers::{push_flows, push_named, push_number};
pub use parts::{is_end, run_of, total_of};
pub use reading::read_report;
pub use text::Text;
pub use text_writer::TextWriter;
pub use value::{PlaceLine, Report};
pub use writing::{word_of, write_report};

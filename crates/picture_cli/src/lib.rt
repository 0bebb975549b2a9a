//! The program that draws plans, online runs and policies: from the words of a command line and the bytes of a trace and
//! a report to the bytes of a picture.
#![tactic(auto)]

mod command;
mod drawing;
mod files;
pub mod laws;
mod messages;
mod parser;
mod policies;
mod run_drawing;
mod status;
mod texts;
mod value;
mod words;

pub use command::sincronia_picture;
pub use status::PictureStatus;

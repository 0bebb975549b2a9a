//! The world outside of the program: shelves of files that are read, sinks that take a text, and wires that take the
//! units of a port. Each has a count of faults, and each fault that a call answers raised it.
#![tactic(auto)]

mod count_wire;
mod disk_shelf;
mod files;
mod mem_shelf;
mod mem_sink;
mod mem_wire;
mod piece;
mod reading;
mod shelf;
mod sink;
mod std_sink;
mod sure_shelf;
mod sure_sink;
mod wire;
mod writing;

pub use count_wire::CountWire;
pub use disk_shelf::DiskShelf;
pub use mem_shelf::MemShelf;
pub use mem_sink::MemSink;
pub use mem_wire::MemWire;
pub use reading::{ReadStop, read_all};
pub use shelf::{Place4, Shelf};
pub use sink::{Failed, Sink};
pub use std_sink::StdSink;
pub use sure_shelf::SureShelf;
pub use sure_sink::SureSink;
pub use wire::Wire;
pub use writing::write_all;

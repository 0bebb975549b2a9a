//! What a trace in the coflow-benchmark format says.
use crate::items::Items;

/// A reducer: its location, and its size in millionths of a megabyte, rounded up.
#[derive(Clone, Copy, Debug, PartialEq, Eq)]
pub struct Reducer {
    pub location: u32,
    pub millionths: u64,
}

/// One coflow of a trace. Its arrival is in milliseconds, its mappers are their locations.
#[derive(Drop)]
pub struct CoflowLine {
    pub id: u32,
    pub arrival: u32,
    pub mappers: Items<u32>,
    pub reducers: Items<Reducer>,
}

/// A trace: the number of ports in its first line, and its coflows in the order of their lines.
#[derive(Drop)]
pub struct Trace {
    pub number: u32,
    pub coflows: Items<CoflowLine>,
}

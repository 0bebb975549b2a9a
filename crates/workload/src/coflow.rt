//! A made coflow.
use coflow_units::Items;

/// A reducer of a made coflow: its location, and whole megabytes.
#[derive(Clone, Copy, Debug, PartialEq, Eq)]
pub struct MadeReducer {
    pub location: u64,
    pub megabytes: u64,
}

/// A made coflow: its id, its arrival in milliseconds, the locations of its mappers, its reducers, and its weight.
#[derive(Drop)]
pub struct MadeCoflow {
    pub id: u64,
    pub arrival: u64,
    pub mappers: Items<u64>,
    pub reducers: Items<MadeReducer>,
    pub weight: u64,
}

//! A place of a released certificate.
use coflow_units::Port;

/// A place of a released certificate.
#[derive(Clone, Copy, Debug, PartialEq, Eq)]
pub struct ReleasePlace {
    pub coflow: u32,
    /// The port that this place charges.
    pub port: Port,
    /// What each coflow up to this place pays for each unit of its load on the port, in parts of 2^40 of a weight of 1.
    pub y: u128,
    /// What the coflow pays for each slot up to its earliest end, in the same parts.
    pub z: u128,
}

//! The names and the options of a command line.
ghost use Rattle.std.specs.Prelude.{◌≤◌};
ghost use Rattle.coflow_units.specs.declared.limits.TheConstants.{MAX_SLOT_MS};

use coflow_units::{Side, UnitSize};

/// What a command line asks for: the picture of a report, or that of policies side by side.
#[derive(Clone, Copy, Debug, PartialEq, Eq)]
pub enum PictureWords<'a> {
    Report(ReportWords<'a>),
    Policies(PoliciesWords<'a>),
}

/// The picture of a report: the names of a trace and of the report, and the value of each option or its default.
#[derive(Clone, Copy, Debug, PartialEq, Eq)]
pub struct ReportWords<'a> {
    pub trace: &'a str,
    pub report: &'a str,
    /// The name of a file of weights.
    pub weights: Option<&'a str>,
    pub unit: UnitSize,
    /// The first slot of the window, from 1 to 2^41 - 1.
    pub from: u64,
    /// The last slot of the window, from 1 to 2^41 - 1.
    pub to: u64,
    pub side: Side,
    /// The milliseconds of a slot, from 1 to 2^20, by which the coflows of an online run arrive.
    pub slot_ms: u64,
    pub ghost some_first: { 1 ≤ from },
    pub ghost some_time: { 1 ≤ slot_ms },
    pub ghost time_limit: { slot_ms ≤ MAX_SLOT_MS },
}

/// The picture of policies on a trace.
#[derive(Clone, Copy, Debug, PartialEq, Eq)]
pub struct PoliciesWords<'a> {
    pub trace: &'a str,
    /// The name of a file of weights.
    pub weights: Option<&'a str>,
    pub unit: UnitSize,
}

/// What a command line says besides the name of a report.
#[derive(Clone, Copy)]
pub(crate) struct Options<'a> {
    pub(crate) trace: &'a str,
    pub(crate) weights: Option<&'a str>,
    pub(crate) unit: UnitSize,
    pub(crate) from: u64,
    pub(crate) to: u64,
    pub(crate) side: Side,
    pub(crate) slot_ms: u64,
    pub(crate) ghost some_first: { 1 ≤ from },
    pub(crate) ghost some_time: { 1 ≤ slot_ms },
    pub(crate) ghost time_limit: { slot_ms ≤ MAX_SLOT_MS },
}

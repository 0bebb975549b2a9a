//! The names and the options of a command line.
ghost use Rattle.std.specs.Prelude.{◌≤◌};
ghost use Rattle.coflow_units.specs.declared.limits.TheConstants.{MAX_SLOT_MS};

use coflow_units::UnitSize;

/// What a command line says: the names of a trace and of a report, and the value of each option or its default.
#[derive(Clone, Copy, Debug, PartialEq, Eq)]
pub struct StatsWords<'a> {
    pub trace: &'a str,
    pub report: &'a str,
    /// The name of a file of weights.
    pub weights: Option<&'a str>,
    pub unit: UnitSize,
    /// The milliseconds of a slot, from 1 to 2^20.
    pub slot_ms: u64,
    /// The milliseconds of a slot are given: numbers are told in milliseconds too.
    pub in_ms: bool,
    /// A row for each coflow is asked for, in place of the numbers of all.
    pub csv: bool,
    pub ghost some_time: { 1 ≤ slot_ms },
    pub ghost time_limit: { slot_ms ≤ MAX_SLOT_MS },
}

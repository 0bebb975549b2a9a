//! The size of a unit.
ghost use Rattle.std.specs.Prelude.{◌≤◌};
ghost use Rattle.coflow_units.specs.declared.limits.TheConstants.{MAX_UNIT};

/// How much a unit is, in megabytes: at least 1, and at most 2^20.
#[derive(Clone, Copy, Debug, PartialEq, Eq)]
pub struct UnitSize {
    pub megabytes: u64,
    pub ghost some: { 1 ≤ megabytes },
    pub ghost limit: { megabytes ≤ MAX_UNIT },
}

impl UnitSize {
    /// A unit of one megabyte.
    pub const MEGABYTE: UnitSize = UnitSize { megabytes: 1 };
}

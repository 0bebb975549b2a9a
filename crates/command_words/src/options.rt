//! The options of a command line, and the limits that no other crate has.
ghost use Rattle.coflow_units.specs.declared.limits.TheConstants.{MAX_OPTION_SLOTS, MAX_SLOT_MS};
ghost use Rattle.command_words.specs.declared.options.TheConstants.{MAX_OPTION_AGENTS, MAX_OPTION_CLASSES};
ghost use Rattle.std.specs.Prelude.{◌≤◌};

use class_rates::Fold;
use coflow_units::UnitSize;

/// The value of each option, or its default. Each number is within its range.
#[derive(Clone, Copy, Debug, PartialEq, Eq)]
pub struct Options<'a> {
    /// The name of a file of weights.
    pub weights: Option<&'a str>,
    pub unit: UnitSize,
    /// The number of agents, who send the units of the ports, from 1 to 64.
    pub agents: u64,
    /// The slots of an epoch, from 1 to 2^40.
    pub epoch: u64,
    /// The slots of a run, from 1 to 2^40.
    pub run: u64,
    /// The milliseconds of a slot, from 1 to 2^20.
    pub slot_ms: u64,
    /// The classes that an order is folded into, from 1 to 64.
    pub classes: u64,
    /// By what it is folded.
    pub fold: Fold,
    pub ghost some_agents: { 1 ≤ agents },
    pub ghost few_agents: { agents ≤ MAX_OPTION_AGENTS },
    pub ghost some_epoch: { 1 ≤ epoch },
    pub ghost epoch_limit: { epoch ≤ MAX_OPTION_SLOTS },
    pub ghost some_run: { 1 ≤ run },
    pub ghost run_limit: { run ≤ MAX_OPTION_SLOTS },
    pub ghost some_time: { 1 ≤ slot_ms },
    pub ghost time_limit: { slot_ms ≤ MAX_SLOT_MS },
    pub ghost some_classes: { 1 ≤ classes },
    pub ghost few_classes: { classes ≤ MAX_OPTION_CLASSES },
}

/// The greatest value of the option `--agents`.
pub const MAX_OPTION_AGENTS: u64 = 64;

/// The greatest value of the option `--classes`.
pub const MAX_OPTION_CLASSES: u64 = 64;

//! The limits of an input.

/// The bytes of an input text: 2^26.
pub const MAX_TEXT: usize = 67_108_864;
/// The bytes of a report that is read: 2^30.
pub const MAX_REPORT: usize = 1_073_741_824;
/// The ports that the first line of a trace may name, from 1. Locations count from 0 to this number, so a side has one
/// port more.
pub const MAX_PORTS: u32 = 1024;
/// The coflows of a trace.
pub const MAX_COFLOWS: u32 = 4096;
/// The id of a coflow: 2^32 - 1.
pub const MAX_ID: u32 = 4_294_967_295;
/// The arrival of a coflow in milliseconds: 2^32 - 1.
pub const MAX_ARRIVAL: u32 = 4_294_967_295;
/// The mappers of a coflow, from 1.
pub const MAX_MAPPERS: u32 = 4096;
/// The reducers of a coflow.
pub const MAX_REDUCERS: u32 = 4096;
/// The megabytes of a reducer: 2^40.
pub const MAX_MEGABYTES: u64 = 1_099_511_627_776;
/// The weight of a coflow, from 1: 2^32.
pub const MAX_WEIGHT: u64 = 4_294_967_296;
/// The units of an instance: 2^40.
pub const MAX_UNITS: u64 = 1_099_511_627_776;
/// The flows of an instance: 2^20.
pub const MAX_FLOWS: u32 = 1_048_576;
/// The last slot: 2^41 - 1.
pub const MAX_SLOT: u64 = 2_199_023_255_551;
/// The units of a trace that clients share live: 2^20.
pub const MAX_LIVE_UNITS: u64 = 1_048_576;
/// The megabytes of a unit, as an option, from 1: 2^20.
pub const MAX_UNIT: u64 = 1_048_576;
/// The milliseconds of a slot, as an option, from 1: 2^20.
pub const MAX_SLOT_MS: u64 = 1_048_576;
/// The slots of an epoch and of a run, as options: 2^40.
pub const MAX_OPTION_SLOTS: u64 = 1_099_511_627_776;
/// What a budget of weight 1 holds: 2^40.
pub const SCALE: u128 = 1_099_511_627_776;
/// The greatest number of a client of a script, from 1.
pub const MAX_CLIENTS: u32 = 64;
/// The commands of a script.
pub const MAX_COMMANDS: u32 = 65_536;
/// The orders that one online run may publish.
pub const MAX_PUBLISHINGS: u32 = 8192;

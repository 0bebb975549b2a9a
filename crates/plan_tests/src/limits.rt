//! The limits of inputs.
use coflow_units::*;

/// What each limit is.
const LIMITS: &[(&str, u128, u128)] = &[
    ("text", MAX_TEXT as u128, 67_108_864),
    ("report", MAX_REPORT as u128, 1_073_741_824),
    ("ports", MAX_PORTS as u128, 1024),
    ("coflows", MAX_COFLOWS as u128, 4096),
    ("id", MAX_ID as u128, 4_294_967_295),
    ("arrival", MAX_ARRIVAL as u128, 4_294_967_295),
    ("mappers", MAX_MAPPERS as u128, 4096),
    ("reducers", MAX_REDUCERS as u128, 4096),
    ("megabytes", MAX_MEGABYTES as u128, 1_099_511_627_776),
    ("weight", MAX_WEIGHT as u128, 4_294_967_296),
    ("units", MAX_UNITS as u128, 1_099_511_627_776),
    ("flows", MAX_FLOWS as u128, 1_048_576),
    ("slot", MAX_SLOT as u128, 2_199_023_255_551),
    ("live units", MAX_LIVE_UNITS as u128, 1_048_576),
    ("option slots", MAX_OPTION_SLOTS as u128, 1_099_511_627_776),
    ("scale", SCALE, 1_099_511_627_776),
    ("clients", MAX_CLIENTS as u128, 64),
    ("commands", MAX_COMMANDS as u128, 65_536),
    ("publishings", MAX_PUBLISHINGS as u128, 8192),
];

#[test]
fn limits_have_these_values(rt: HostRuntime) {
    for (name, limit, want) in LIMITS {
        if limit != want {
            panic!(rt; "{name} is {limit}");
        }
    }
}

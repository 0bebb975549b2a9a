//! What is found by looking at all coflows once.
ghost use Rattle.std.specs.Prelude.{◌≡◌, ◌≤◌, ◌↔◌, IsTrue, length};
ghost use Rattle.coflow_units.specs.declared.limits.TheConstants.{MAX_COFLOWS};
ghost use Rattle.epochs.specs.Course.{IsFirstServed, IsFirstWaiting, IsLaterArrival, SomeOwes};

/// The coflow that joins next: of those that have not joined the first by arrival and then by number.
pub fn first_waiting(arrivals: &[u64], registered: &[bool]) -> Option<u32>
    requires len { length registered.now ≡ length arrivals.now }
    requires limit { length arrivals.now ≤ MAX_COFLOWS }
    ensures { IsFirstWaiting arrivals.now registered.now result }
{
    let mut first: Option<u32> = None;
    for coflow in 0..arrivals.len() {
        if registered[coflow] {
            continue;
        }
        if let Some(other) = first {
            if arrivals[other as usize] <= arrivals[coflow] {
                continue;
            }
        }
        first = Some(coflow as u32);
    }
    first
}

/// Whether a coflow that is present owes a unit.
pub fn some_owes(registered: &[bool], withdrawn: &[bool], owed: &[u64]) -> bool
    requires withdrawn_len { length withdrawn.now ≡ length registered.now }
    requires owed_len { length owed.now ≡ length registered.now }
    ensures { IsTrue result ↔ SomeOwes registered.now withdrawn.now owed.now }
{
    for coflow in 0..registered.len() {
        if !registered[coflow] {
            continue;
        }
        if withdrawn[coflow] {
            continue;
        }
        if owed[coflow] > 0 {
            return true;
        }
    }
    false
}

/// The first coflow by number that is present and owes nothing.
pub fn first_served(registered: &[bool], withdrawn: &[bool], owed: &[u64]) -> Option<u32>
    requires withdrawn_len { length withdrawn.now ≡ length registered.now }
    requires owed_len { length owed.now ≡ length registered.now }
    requires limit { length registered.now ≤ MAX_COFLOWS }
    ensures { IsFirstServed registered.now withdrawn.now owed.now result }
{
    for coflow in 0..registered.len() {
        if !registered[coflow] {
            continue;
        }
        if withdrawn[coflow] {
            continue;
        }
        if owed[coflow] == 0 {
            return Some(coflow as u32);
        }
    }
    None
}

/// The first arrival after this time.
pub fn next_arrival(arrivals: &[u64], time: u64) -> Option<u64>
    ensures { IsLaterArrival arrivals.now time result }
{
    let mut next: Option<u64> = None;
    for arrival in arrivals {
        if *arrival <= time {
            continue;
        }
        if let Some(other) = next {
            if other <= *arrival {
                continue;
            }
        }
        next = Some(*arrival);
    }
    next
}

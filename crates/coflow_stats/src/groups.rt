//! The groups of coflows, and how long a coflow takes.
ghost use Rattle.std.specs.Prelude.{◌≡◌, IfOk};
ghost use Rattle.coflow_stats.specs.Groups.{duration, durations_of, group_of, group_word, is_in, is_narrow, is_short};

use crate::value::{Finished, Group};
use coflow_units::NoMemory;
use std::alloc::Global;

/// How many slots pass from the arrival of a coflow to its completion. A coflow without units takes none.
pub(crate) fn duration(coflow: &Finished) -> u64
    ensures { result ≡ duration coflow.now }
{
    coflow.completion.saturating_sub(coflow.arrival)
}

/// The group of a coflow, where a unit has so many megabytes.
pub(crate) fn group_of(unit: u64, coflow: &Finished) -> Group
    ensures { result ≡ group_of unit coflow.now }
{
    match (is_short(unit, coflow), is_narrow(coflow)) {
        (true, true) => Group::ShortNarrow,
        (false, true) => Group::LongNarrow,
        (true, false) => Group::ShortWide,
        (false, false) => Group::LongWide,
    }
}

/// How a group is spelled.
pub(crate) fn word_of(group: Group) -> &'static [u8]
    ensures { result.now ≡ group_word group }
{
    match group {
        Group::ShortNarrow => b"short-narrow",
        Group::LongNarrow => b"long-narrow",
        Group::ShortWide => b"short-wide",
        Group::LongWide => b"long-wide",
    }
}

/// The durations of the coflows of a group. The error is want of memory.
pub(crate) fn durations_of(
    alloc: Global,
    group: Group,
    unit: u64,
    coflows: &[Finished],
) -> Result<Vec<u64>, NoMemory>
    ensures { IfOk result (λ durations. durations.items ≡ durations_of group unit coflows.now) }
{
    let mut durations = Vec::new(alloc);
    for coflow in coflows {
        if is_in(group, unit, coflow) {
            durations.push(duration(coflow))?;
        }
    }
    Ok(durations)
}

/// Whether a coflow is of the group.
fn is_in(group: Group, unit: u64, coflow: &Finished) -> bool
    ensures { result ≡ is_in group unit coflow.now }
{
    match group {
        Group::ShortNarrow => is_short(unit, coflow) && is_narrow(coflow),
        Group::LongNarrow => !is_short(unit, coflow) && is_narrow(coflow),
        Group::ShortWide => is_short(unit, coflow) && !is_narrow(coflow),
        Group::LongWide => !is_short(unit, coflow) && !is_narrow(coflow),
    }
}

/// Whether the longest flow of a coflow has less than 5 megabytes.
fn is_short(unit: u64, coflow: &Finished) -> bool
    ensures { result ≡ is_short unit coflow.now }
{
    u128::from(coflow.longest) * u128::from(unit) < 5
}

/// Whether a coflow has at most 50 flows.
fn is_narrow(coflow: &Finished) -> bool
    ensures { result ≡ is_narrow coflow.now }
{
    coflow.flows <= 50
}

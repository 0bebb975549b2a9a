//! Summaries of numbers.
ghost use Rattle.std.specs.Prelude.{◌≡◌, ◌≤◌, ◌*◌, ◌^◌, IfOk, length, sum};
ghost use Rattle.std.specs.List.Sorted.{IsNonDecreasingBy};
ghost use Rattle.coflow_units.specs.declared.limits.TheConstants.{MAX_COFLOWS};
ghost use Rattle.coflow_stats.specs.Stats.{IsSmall};
ghost use Rattle.coflow_stats.specs.Summary.{AreRanks, IsSummary};

use crate::percentile::percentile;
use crate::value::{Ranks, Summary};
use coflow_units::NoMemory;
use std::alloc::Global;

/// How many numbers there are, at most 4096, their sum and their ranks. The error is want of memory.
pub fn summary_of(alloc: Global, numbers: &[u64]) -> Result<Summary, NoMemory>
    requires { length numbers.now ≤ MAX_COFLOWS }
    ensures summary { IfOk result (λ summary. IsSummary numbers.now summary) }
    ensures small { IfOk result IsSmall }
{
    let mut sorted = Vec::from_slice(alloc, numbers)?;
    sorted.sort_unstable();
    Ok(Summary {
        count: numbers.len() as u32,
        total: total_of(numbers),
        ranks: ranks_of(&sorted),
    })
}

/// The sum of numbers.
fn total_of(numbers: &[u64]) -> u128
    requires { length numbers.now ≤ MAX_COFLOWS }
    ensures sum { result ≡ sum numbers.now }
    ensures small { result ≤ length numbers.now * 2 ^ 64 }
{
    let mut total = 0;
    for number in numbers {
        total += u128::from(*number);
    }
    total
}

/// The ranks of numbers in ascending order, at most 4096, which an empty list has not.
fn ranks_of(sorted: &[u64]) -> Option<Ranks>
    requires few { length sorted.now ≤ MAX_COFLOWS }
    requires sorted { IsNonDecreasingBy (λ number. number) sorted.now }
    ensures { AreRanks sorted.now result }
{
    if sorted.is_empty() {
        return None;
    }
    Some(Ranks {
        median: percentile(50, sorted),
        p95: percentile(95, sorted),
        p99: percentile(99, sorted),
    })
}

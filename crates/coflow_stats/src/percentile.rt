//! Percentiles by the nearest rank.
ghost use Rattle.std.specs.Prelude.{◌≡◌, ◌≤◌, ◌<◌, length};
ghost use Rattle.std.specs.List.Sorted.{IsNonDecreasingBy};
ghost use Rattle.coflow_units.specs.declared.limits.TheConstants.{MAX_COFLOWS};
ghost use Rattle.coflow_stats.specs.Percentile.{IsPercentile, rank};

/// The number at so many per cent, from 1 to 100, of a list in ascending order, which has a number and at most 4096:
/// the one at the nearest rank.
pub(crate) fn percentile(percent: usize, sorted: &[u64]) -> u64
    requires some_percent { 1 ≤ percent }
    requires all_percent { percent ≤ 100 }
    requires some { 1 ≤ length sorted.now }
    requires few { length sorted.now ≤ MAX_COFLOWS }
    requires sorted { IsNonDecreasingBy (λ number. number) sorted.now }
    ensures { IsPercentile percent sorted.now result }
{
    sorted[rank(percent, sorted.len()) - 1]
}

/// The rank of so many per cent of some numbers, rounded up.
fn rank(percent: usize, numbers: usize) -> usize
    requires some_percent { 1 ≤ percent }
    requires all_percent { percent ≤ 100 }
    requires some { 1 ≤ numbers }
    requires few { numbers ≤ MAX_COFLOWS }
    ensures rank { result ≡ rank percent numbers }
    ensures first { 1 ≤ result }
    ensures last { result ≤ numbers }
{
    (percent * numbers).div_ceil(100)
}

//! Coflows by their bottleneck over their weight, and those of one ratio by number.
ghost use Rattle.std.specs.Prelude.{◌≡◌, ◌≤◌, ◌^◌, length};
ghost use Rattle.std.specs.List.Sorted.{IsNonDecreasingBy, IsPermutation};
ghost use Rattle.coflow_units.specs.declared.limits.TheConstants.{MAX_COFLOWS};
ghost use Rattle.rankers.specs.ByKey.{by_key, key_then_coflow};
ghost use Rattle.rankers.specs.Kinds.{ratio_in};

use crate::by_key::number;
use crate::facts::Facts;

/// Fills `out` with the numbers from 0 on, by the ratios of these coflows, and those of one ratio by number.
pub(crate) fn fill_by_ratio(facts: &Facts, out: &mut [u32])
    requires { length out.old ≤ MAX_COFLOWS }
    ensures { out.new ≡ by_key (ratio_in facts.now) (length out.old) }
{
    number(out);
    sort_by_ratio(facts, out);
}

/// Sorts coflows by their ratios, and those of one ratio by number.
fn sort_by_ratio(facts: &Facts, coflows: &mut [u32])
    ensures moved { IsPermutation coflows.old coflows.new }
    ensures sorted { IsNonDecreasingBy (λ c. key_then_coflow (ratio_in facts.now c) c) coflows.new }
{
    coflows.sort_unstable_by_key(|coflow| key_then_coflow(facts.ratio(*coflow), *coflow));
}

/// A number that compares as the key, and then as the number of the coflow.
fn key_then_coflow(key: u128, coflow: u32) -> u128
    requires { key ≤ 2 ^ 105 }
    ensures { result ≡ key_then_coflow key coflow }
{
    key * 4096 + u128::from(coflow)
}

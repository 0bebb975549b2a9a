//! Cost by bound.
ghost use Rattle.std.specs.Prelude.{◌≡◌, ◌<◌, ◌≤◌, ◌^◌, ◌++◌, OnOk};
ghost use Rattle.coflow_stats.specs.Text.{ratio_words, ten_thousandths};

use crate::digits::push_ten_thousandths;
use coflow_units::NoMemory;

/// Writes cost by bound behind a space at the end of the text, in ten-thousandths that are rounded up, or a hyphen
/// where the bound is 0. The error is want of memory.
pub(crate) fn push_ratio(text: &mut Vec<u8>, cost: u128, bound: u128) -> Result<(), NoMemory>
    requires { cost ≤ 2 ^ 100 }
    ensures { OnOk result (text.new.items ≡ text.old.items ++ ratio_words cost bound) }
{
    if bound == 0 {
        text.extend_from_slice(b" -")?;
        return Ok(());
    }
    text.extend_from_slice(b" ")?;
    push_ten_thousandths(text, ten_thousandths(cost, bound))?;
    Ok(())
}

/// The ten-thousandths of cost by bound, rounded up.
fn ten_thousandths(cost: u128, bound: u128) -> u128
    requires small { cost ≤ 2 ^ 100 }
    requires some { 0 < bound }
    ensures { result ≡ ten_thousandths cost bound }
{
    (10_000 * cost).div_ceil(bound)
}

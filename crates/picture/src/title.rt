//! The title.
ghost use Rattle.std.specs.Prelude.{◌≡◌, ◌<◌, ◌≤◌, ◌^◌, ◌++◌, OnOk};
ghost use Rattle.picture.specs.Layout.{IsDrawable};
ghost use Rattle.picture.specs.Svg.{title_text};
ghost use Rattle.picture.specs.Title.{hundredths, ratio_words, title_words};

use crate::number::{push_total, push_two_digits};
use crate::value::Picture;
use coflow_units::NoMemory;

/// The title.
pub(crate) fn push_title(text: &mut Vec<u8>, picture: &Picture) -> Result<(), NoMemory>
    requires { IsDrawable picture.now }
    ensures { OnOk result (text.new.items ≡ text.old.items ++ title_text picture.now) }
{
    text.extend_from_slice(b"<text x='70' y='24' font-size='16'>")?;
    push_words(text, picture.cost, picture.bound)?;
    text.extend_from_slice(b"</text>\n")?;
    Ok(())
}

/// The words of the title.
fn push_words(text: &mut Vec<u8>, cost: u128, bound: u128) -> Result<(), NoMemory>
    requires { cost ≤ 2 ^ 120 }
    ensures { OnOk result (text.new.items ≡ text.old.items ++ title_words cost bound) }
{
    push_total(text, b"cost ", cost)?;
    push_total(text, b", bound ", bound)?;
    push_ratio(text, cost, bound)?;
    Ok(())
}

/// How many times the least cost the schedule costs at most.
fn push_ratio(text: &mut Vec<u8>, cost: u128, bound: u128) -> Result<(), NoMemory>
    requires { cost ≤ 2 ^ 120 }
    ensures { OnOk result (text.new.items ≡ text.old.items ++ ratio_words cost bound) }
{
    if bound == 0 {
        return Ok(());
    }
    text.extend_from_slice(b", at most ")?;
    push_two_digits(text, hundredths(cost, bound))?;
    text.extend_from_slice(b" times the best")?;
    Ok(())
}

/// The hundredths of cost by bound, rounded up.
pub(crate) fn hundredths(cost: u128, bound: u128) -> u128
    requires small { cost ≤ 2 ^ 120 }
    requires some { 0 < bound }
    ensures { result ≡ hundredths cost bound }
{
    (100 * cost).div_ceil(bound)
}

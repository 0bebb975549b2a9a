//! The title of an online run.
ghost use Rattle.std.specs.Prelude.{◌≡◌, ◌≤◌, ◌^◌, ◌++◌, OnOk};
ghost use Rattle.picture.specs.RunSvg.{run_ratio, run_title, run_words};

use crate::number::{push_total, push_two_digits};
use crate::run_value::RunCosts;
use crate::title::hundredths;
use coflow_units::NoMemory;

/// The title.
pub(crate) fn push_run_title(text: &mut Vec<u8>, costs: RunCosts) -> Result<(), NoMemory>
    requires { costs.cost ≤ 2 ^ 120 }
    ensures { OnOk result (text.new.items ≡ text.old.items ++ run_title costs) }
{
    text.extend_from_slice(b"<text x='70' y='24' font-size='16'>")?;
    push_words(text, costs)?;
    text.extend_from_slice(b"</text>\n")?;
    Ok(())
}

/// The words of the title.
fn push_words(text: &mut Vec<u8>, costs: RunCosts) -> Result<(), NoMemory>
    requires { costs.cost ≤ 2 ^ 120 }
    ensures { OnOk result (text.new.items ≡ text.old.items ++ run_words costs) }
{
    push_total(text, b"cost ", costs.cost)?;
    push_total(
        text,
        b", no schedule that waits for arrivals costs less than ",
        costs.total,
    )?;
    push_ratio(text, costs)?;
    Ok(())
}

/// How many times the least cost the run costs at most, where each completion counts from the arrival.
fn push_ratio(text: &mut Vec<u8>, costs: RunCosts) -> Result<(), NoMemory>
    requires { costs.cost ≤ 2 ^ 120 }
    ensures { OnOk result (text.new.items ≡ text.old.items ++ run_ratio costs) }
{
    if costs.total <= costs.arrivals {
        return Ok(());
    }
    let cost = costs.cost.saturating_sub(costs.arrivals);
    let least = costs.total - costs.arrivals;
    text.extend_from_slice(b"; without arrivals at most ")?;
    push_two_digits(text, hundredths(cost, least))?;
    text.extend_from_slice(b" times the least")?;
    Ok(())
}

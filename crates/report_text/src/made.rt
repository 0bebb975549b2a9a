//! The summary of a made workload.
ghost use Rattle.std.specs.Prelude.{◌≡◌, ◌++◌, IfOk, OnOk};
ghost use Rattle.coflow_units.specs.Text.{ended};
ghost use Rattle.report_text.specs.Made.{counts_line, made_text};

use crate::numbers::{push_named, push_number};
use coflow_units::NoMemory;
use std::alloc::Global;

/// What is said of a workload of 200 coflows that was made from a seed, and of its plan, which the check found to hold:
/// how many flows the workload has, how many units they have together, the lower bound on the cost of any schedule, the
/// slack of rounding, and the cost of the schedule.
#[derive(Clone, Copy, Debug, PartialEq, Eq)]
pub struct Made {
    pub seed: u64,
    pub flows: u32,
    pub units: u64,
    pub bound: u128,
    pub slack: u128,
    pub cost: u128,
}

/// The text of the summary of a made workload.
///
/// Words are separated by one space, each line ends with one line feed, and numbers are decimal without leading zeros.
/// The lines are `sincronia make SEED`, `coflows 200 flows FLOWS units UNITS`, `bound B`, `slack X`, `cost C`, `check
/// yes` and `end`. The answer of the check is always yes: a plan that the check refuses has no summary.
///
/// The error is want of memory.
pub fn write_made(alloc: Global, made: &Made) -> Result<Vec<u8>, NoMemory>
    ensures text { IfOk result (λ bytes. bytes.items ≡ made_text made.now) }
{
    let mut text = Vec::new(alloc);
    push_named(&mut text, b"sincronia make", u128::from(made.seed))?;
    push_counts(&mut text, made)?;
    push_named(&mut text, b"bound", made.bound)?;
    push_named(&mut text, b"slack", made.slack)?;
    push_named(&mut text, b"cost", made.cost)?;
    text.extend_from_slice(b"check yes\nend\n")?;
    Ok(text)
}

/// The line of the numbers of coflows, flows and units.
fn push_counts(text: &mut Vec<u8>, made: &Made) -> Result<(), NoMemory>
    ensures { OnOk result (text.new.items ≡ text.old.items ++ ended (counts_line made.now)) }
{
    text.extend_from_slice(b"coflows 200 flows")?;
    push_number(text, u128::from(made.flows))?;
    text.extend_from_slice(b" units")?;
    push_number(text, u128::from(made.units))?;
    text.extend_from_slice(b"\n")?;
    Ok(())
}

//! Numbers in a range.
ghost use Rattle.std.specs.Prelude.{◌≡◌, ◌≤◌, ◌^◌, ◌-◌, ℕ};
ghost use Rattle.text_fields.specs.Numbers.{number};
ghost use Rattle.trace_reader.specs.Checks.{Answers, number_checks};
ghost use Rattle.trace_reader.specs.Parts.{IsInRange};

use crate::fault::TraceFault;
use coflow_units::Quantity;
use text_fields::number_of;

/// The count, where it is from least to most.
pub(crate) fn in_range(
    count: u64,
    line: u32,
    which: Quantity,
    least: u32,
    most: u32,
) -> Result<u32, TraceFault>
    ensures { IsInRange line which least most count result }
{
    if count < u64::from(least) {
        return Err(TraceFault::Limit { line, which, count });
    }
    if count > u64::from(most) {
        return Err(TraceFault::Limit { line, which, count });
    }
    Ok(count as u32)
}

/// The number that the text of this field of the line spells, where it is from least to most.
pub(crate) fn number_in(
    text: &[u8],
    line: u32,
    field: u32,
    which: Quantity,
    least: u32,
    most: u32,
) -> Result<u32, TraceFault>
    ensures { Answers (number_checks line field which least most text.now) (λ v. (v ≡ number text.now) × (least ≤ v) ×
        (v ≤ most)) result }
{
    let Some(count) = number_of(text) else {
        return Err(TraceFault::BadLine { line, field });
    };
    in_range(count, line, which, least, most)
}

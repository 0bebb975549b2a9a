//! Numbers with digits behind a point.
ghost use Rattle.std.specs.Prelude.{◌≡◌, ◌++◌, OnOk, decimal};
ghost use Rattle.coflow_stats.specs.Text.{last_three, of_ten_thousandths, of_thousandths};

use coflow_units::NoMemory;
use itoa::Buffer;

/// Writes a number at the end of the text. The error is want of memory.
pub(crate) fn push_decimal(text: &mut Vec<u8>, number: u128) -> Result<(), NoMemory>
    ensures { OnOk result (text.new.items ≡ text.old.items ++ decimal number) }
{
    let mut buffer = Buffer::new();
    text.extend_from_slice(buffer.format(number).as_bytes())?;
    Ok(())
}

/// Writes a number of thousandths at the end of the text, with three digits behind the point. The error is want of
/// memory.
pub(crate) fn push_thousandths(text: &mut Vec<u8>, number: u128) -> Result<(), NoMemory>
    ensures { OnOk result (text.new.items ≡ text.old.items ++ of_thousandths number) }
{
    push_decimal(text, number / 1000)?;
    text.extend_from_slice(b".")?;
    push_last_three(text, number)?;
    Ok(())
}

/// Writes a number of ten-thousandths at the end of the text, with four digits behind the point. The error is want of
/// memory.
pub(crate) fn push_ten_thousandths(text: &mut Vec<u8>, number: u128) -> Result<(), NoMemory>
    ensures { OnOk result (text.new.items ≡ text.old.items ++ of_ten_thousandths number) }
{
    push_decimal(text, number / 10_000)?;
    text.extend_from_slice(b".")?;
    push_decimal(text, number / 1000 % 10)?;
    push_last_three(text, number)?;
    Ok(())
}

/// Writes the last three digits of a number at the end of the text.
fn push_last_three(text: &mut Vec<u8>, number: u128) -> Result<(), NoMemory>
    ensures { OnOk result (text.new.items ≡ text.old.items ++ last_three number) }
{
    push_decimal(text, number / 100 % 10)?;
    push_decimal(text, number / 10 % 10)?;
    push_decimal(text, number % 10)?;
    Ok(())
}

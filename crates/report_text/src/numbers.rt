//! Numbers in texts.
ghost use Rattle.std.specs.Prelude.{◌≡◌, ◌+◌, ◌-◌, ◌≤◌, ◌^◌, ◌++◌, OnOk, decimal, length, min, take};
ghost use Rattle.std.specs.List.{flat_map};
ghost use Rattle.coflow_units.specs.Text.{ended, spaced};

use coflow_units::NoMemory;
use itoa::{Buffer, write_digits};

/// Writes a number behind a space at the end of the text. The error is want of memory.
pub fn push_number(text: &mut Vec<u8>, number: u128) -> Result<(), NoMemory>
    ensures { OnOk result (text.new.items ≡ text.old.items ++ spaced number) }
{
    let mut buffer = Buffer::new();
    text.extend_from_slice(b" ")?;
    text.extend_from_slice(buffer.format(number).as_bytes())?;
    Ok(())
}

/// Writes the line of a name and a number at the end of the text. The error is want of memory.
pub fn push_named(text: &mut Vec<u8>, name: &[u8], number: u128) -> Result<(), NoMemory>
    ensures { OnOk result (text.new.items ≡ text.old.items ++ ended (name.now ++ spaced number)) }
{
    text.extend_from_slice(name)?;
    push_number(text, number)?;
    text.extend_from_slice(b"\n")?;
    Ok(())
}

/// Writes the numbers of flows, each behind a space, at the end of the text. The error is want of memory.
pub fn push_flows(text: &mut Vec<u8>, flows: &[u32]) -> Result<(), NoMemory>
    ensures { OnOk result (text.new.items ≡ text.old.items ++ flat_map spaced flows.now) }
{
    let start = text.len();
    text.resize(start.saturating_add(width_of_flows(flows)), 0)?;
    write_flows(flows, text, start);
    Ok(())
}

/// Writes the numbers of flows, each behind a space, into a text from a place on, and answers where they end.
pub(crate) fn write_flows(flows: &[u32], text: &mut [u8], start: usize) -> usize
    requires { start + length (flat_map spaced flows.now) ≤ length text.old }
    ensures len { length text.new ≡ length text.old }
    ensures end { result ≡ start + length (flat_map spaced flows.now) }
    ensures text { take result text.new ≡ take start text.old ++ flat_map spaced flows.now }
{
    let mut end = start;
    for flow in flows {
        text[end] = b' ';
        end += 1 + width_of(*flow);
        write_digits(u64::from(*flow), text, end);
    }
    end
}

/// How many bytes the numbers of flows take, each behind a space, or the greatest number where they take more.
fn width_of_flows(flows: &[u32]) -> usize
    ensures { result ≡ min (length (flat_map spaced flows.now)) (2 ^ 64 - 1) }
{
    let mut width = 0usize;
    for flow in flows {
        width = width.saturating_add(1 + width_of(*flow));
    }
    width
}

/// How many digits a number has.
fn width_of(number: u32) -> usize
    ensures { result ≡ length (decimal number) }
{
    match number {
        0..=9 => 1,
        10..=99 => 2,
        100..=999 => 3,
        1_000..=9_999 => 4,
        10_000..=99_999 => 5,
        100_000..=999_999 => 6,
        1_000_000..=9_999_999 => 7,
        10_000_000..=99_999_999 => 8,
        100_000_000..=999_999_999 => 9,
        _ => 10,
    }
}

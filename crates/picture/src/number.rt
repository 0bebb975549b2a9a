//! Numbers in lists and in the text.
ghost use Rattle.std.specs.Prelude.{◌≡◌, ◌++◌, OnOk, slice_index};
ghost use Rattle.picture.specs.Text.{numbered, one_digit, three_digits, two_digits};

use coflow_units::NoMemory;
use itoa::Buffer;

/// The number at a place, or 0 behind the last place.
pub fn number_at(numbers: &[u32], place: usize) -> u32
    ensures { result ≡ slice_index numbers.now place }
{
    match numbers.get(place) {
        Some(number) => *number,
        None => 0,
    }
}

/// A number behind the bytes that lead to it.
pub fn push_number(text: &mut Vec<u8>, lead: &[u8], number: u64) -> Result<(), NoMemory>
    ensures { OnOk result (text.new.items ≡ text.old.items ++ numbered lead.now number) }
{
    let mut buffer = Buffer::new();
    text.extend_from_slice(lead)?;
    text.extend_from_slice(buffer.format(number).as_bytes())?;
    Ok(())
}

/// A total behind the bytes that lead to it.
pub fn push_total(text: &mut Vec<u8>, lead: &[u8], number: u128) -> Result<(), NoMemory>
    ensures { OnOk result (text.new.items ≡ text.old.items ++ numbered lead.now number) }
{
    let mut buffer = Buffer::new();
    text.extend_from_slice(lead)?;
    text.extend_from_slice(buffer.format(number).as_bytes())?;
    Ok(())
}

/// A number of tenths, with one digit behind the point.
pub fn push_one_digit(text: &mut Vec<u8>, number: u128) -> Result<(), NoMemory>
    ensures { OnOk result (text.new.items ≡ text.old.items ++ one_digit number) }
{
    push_total(text, b"", number / 10)?;
    push_total(text, b".", number % 10)?;
    Ok(())
}

/// A number of hundredths, with two digits behind the point.
pub fn push_two_digits(text: &mut Vec<u8>, number: u128) -> Result<(), NoMemory>
    ensures { OnOk result (text.new.items ≡ text.old.items ++ two_digits number) }
{
    push_total(text, b"", number / 100)?;
    push_total(text, b".", number / 10 % 10)?;
    push_total(text, b"", number % 10)?;
    Ok(())
}

/// Less than a thousand thousandths, with three digits behind the point.
pub fn push_three_digits(text: &mut Vec<u8>, number: u64) -> Result<(), NoMemory>
    ensures { OnOk result (text.new.items ≡ text.old.items ++ three_digits number) }
{
    push_number(text, b"0.", number / 100)?;
    push_number(text, b"", number / 10 % 10)?;
    push_number(text, b"", number % 10)?;
    Ok(())
}

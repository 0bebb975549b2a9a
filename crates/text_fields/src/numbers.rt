//! Numbers of fields.
ghost use Rattle.std.specs.Prelude.{◌≡◌, ◌≤◌, ◌==◌, true};
ghost use Rattle.std.specs.List.{list_all};
ghost use Rattle.text_fields.specs.Numbers.{IsNumberOf, is_digit as digit, is_number as number_text};

use std::str;

/// Whether the field is one or more decimal digits, and nothing else.
pub fn is_number(field: &[u8]) -> bool
    ensures { result ≡ number_text field.now }
{
    !field.is_empty() && has_digits_alone(field)
}

/// The number that the field spells, or 2^64 - 1 where it is greater. `None` where the field is not one or more decimal
/// digits.
pub fn number_of(field: &[u8]) -> Option<u64>
    ensures { IsNumberOf field.now result }
{
    if !is_number(field) {
        return None;
    }
    let Ok(text) = str::from_utf8(field) else {
        return None;
    };
    let Ok(number) = text.parse::<u64>() else {
        return Some(u64::MAX);
    };
    Some(number)
}

fn is_digit(byte: u8) -> bool
    ensures { result ≡ digit byte }
{
    byte >= b'0' && byte <= b'9'
}

fn has_digits_alone(field: &[u8]) -> bool
    ensures { result ≡ list_all digit field.now }
{
    field.iter().all(|b| is_digit(*b))
}

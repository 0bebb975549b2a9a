//! A line, and a number behind a space.
ghost use Rattle.std.specs.Prelude.{◌==◌, ◌≡◌, ◌<◌, ◌≤◌, ◌^◌, ◌↔◌, IsTrue, not, length, position, slice_index};
ghost use Rattle.std.specs.Char.{is_ascii_digit};
ghost use Rattle.std.specs.List.{position_or_len};
ghost use Rattle.report_text.specs.Readers.{IsLeading, IsLineThen, IsNumberThen, IsSideThen};

use coflow_units::Side;
use itoa::Buffer;
use memchr::memchr;
use std::str;

/// The line that the bytes begin with, without its line feed, and the bytes behind it.
pub fn line_then(bytes: &[u8]) -> Option<(&[u8], &[u8])>
    ensures { IsLineThen (λ x. (x.0.now, x.1.now)) bytes.now result }
{
    let (line, behind) = bytes.split_at(line_length(bytes));
    let Some(rest) = behind.strip_prefix(b"\n") else {
        return None;
    };
    Some((line, rest))
}

/// How many bytes stand before the first line feed.
fn line_length(bytes: &[u8]) -> usize
    ensures line { result ≡ position_or_len (λ b. b == 10) bytes.now }
    ensures inside { result ≤ length bytes.now }
{
    match memchr(b'\n', bytes) {
        Some(place) => place,
        None => bytes.len(),
    }
}

/// The place of the first byte that is no digit.
fn first_other(bytes: &[u8]) -> Option<usize>
    ensures { result ≡ position (λ b. not (is_ascii_digit b)) bytes.now }
{
    bytes.iter().position(|b| !b.is_ascii_digit())
}

/// How many digits the bytes begin with.
fn digits_length(bytes: &[u8]) -> usize
    ensures digits { result ≡ position_or_len (λ b. not (is_ascii_digit b)) bytes.now }
    ensures inside { result ≤ length bytes.now }
{
    match first_other(bytes) {
        Some(place) => place,
        None => bytes.len(),
    }
}

/// The number of at most `most` and without leading zeros that the bytes begin with behind a space, and the bytes
/// behind it.
pub fn number_then(bytes: &[u8], most: u128) -> Option<(u128, &[u8])>
    ensures { IsNumberThen (λ x. (x.0, x.1.now)) most bytes.now result }
{
    let Some(digits) = bytes.strip_prefix(b" ") else {
        return None;
    };
    let (field, rest) = digits.split_at(digits_length(digits));
    let Ok(text) = str::from_utf8(field) else {
        return None;
    };
    let Ok(number) = text.parse::<u128>() else {
        return None;
    };
    if number > most {
        return None;
    }
    let mut buffer = Buffer::new();
    if buffer.format(number).as_bytes() == field {
        Some((number, rest))
    } else {
        None
    }
}

/// As `number_then`, for a `most` below 2^60: each byte is looked at once.
pub fn count_then(bytes: &[u8], most: u64) -> Option<(u64, &[u8])>
    requires { most < 2 ^ 60 }
    ensures { IsNumberThen (λ x. (x.0, x.1.now)) most bytes.now result }
{
    let Some((first, digits)) = bytes.split_first() else {
        return None;
    };
    if *first != b' ' {
        return None;
    }
    let (number, count) = leading_number(digits, most);
    if number > most {
        return None;
    }
    if !is_plain(digits, count) {
        return None;
    }
    let (_, rest) = digits.split_at(count);
    Some((number, rest))
}

/// The number that the leading digits are, and how many they are. Digits behind a number above `most` are not read.
fn leading_number(digits: &[u8], most: u64) -> (u64, usize)
    requires { most < 2 ^ 60 }
    ensures { IsLeading most digits.now result.0 result.1 }
{
    let mut number = 0;
    let mut count = 0;
    'digits: while count < digits.len() {
        let byte = digits[count];
        if !byte.is_ascii_digit() {
            return (number, count);
        }
        if number > most {
            return (number, count);
        }
        number = number * 10 + u64::from(byte - b'0');
        count += 1;
    }
    (number, count)
}

/// There is a digit, and the first of more than one is not zero.
fn is_plain(digits: &[u8], count: usize) -> bool
    requires { count ≤ length digits.now }
    ensures { IsTrue result ↔ ((0 < count) × (slice_index digits.now 0 ≡ 48 → count ≡ 1)) }
{
    if count == 0 {
        return false;
    }
    digits[0] != b'0' || count == 1
}

/// The side that the bytes begin with behind a space, and the bytes behind it.
pub fn side_then(bytes: &[u8]) -> Option<(Side, &[u8])>
    ensures { IsSideThen (λ x. (x.0, x.1.now)) bytes.now result }
{
    if let Some(rest) = bytes.strip_prefix(b" in") {
        return Some((Side::Ingress, rest));
    }
    if let Some(rest) = bytes.strip_prefix(b" out") {
        return Some((Side::Egress, rest));
    }
    None
}

//! Decimals of fields.
ghost use Rattle.std.specs.Prelude.{◌≡◌, ◌≤◌, ◌==◌, true, position};
ghost use Rattle.std.specs.List.{list_all};
ghost use Rattle.text_fields.specs.Numbers.{is_digit as digit};
ghost use Rattle.text_fields.specs.Decimals.{IsDecimalOf, IsFraction, is_point};

use crate::numbers::{is_number, number_of};

/// A decimal, rounded up to millionths and rounded up to wholes. Each is at most 2^64 - 1, which also stands for all
/// that is more.
#[derive(Clone, Copy, Debug, PartialEq, Eq)]
pub struct Decimal {
    pub millionths: u64,
    pub wholes: u64,
}

/// The decimal that the field spells. `None` where the field is not a number, and not a number, a point and one or more
/// digits.
pub fn decimal_of(field: &[u8]) -> Option<Decimal>
    ensures { IsDecimalOf (λ v. v.millionths) (λ v. v.wholes) field.now result }
{
    let Some(point) = first_point(field) else {
        let Some(whole) = number_of(field) else {
            return None;
        };
        return Some(Decimal {
            millionths: whole.saturating_mul(1000000),
            wholes: whole,
        });
    };
    let digits = &field[point + 1..];
    let Some(whole) = number_of(&field[..point]) else {
        return None;
    };
    if !is_number(digits) {
        return None;
    }
    let fraction = fraction_of(digits);
    Some(Decimal {
        millionths: whole.saturating_mul(1000000).saturating_add(fraction),
        wholes: whole.saturating_add(fraction.min(1)),
    })
}

fn first_point(field: &[u8]) -> Option<usize>
    ensures { result ≡ position is_point field.now }
{
    field.iter().position(|b| *b == b'.')
}

fn has_zeros_alone(digits: &[u8]) -> bool
    ensures { result ≡ list_all (λ b. b == 48) digits.now }
{
    digits.iter().all(|b| *b == b'0')
}

/// What one in the last of 0 to 6 digits behind a point counts, in millionths.
static POWERS: [u64; 7] = [1000000, 100000, 10000, 1000, 100, 10, 1];

/// The digits behind a point as millionths, rounded up. The first six count, and one more where a later one is not
/// zero.
fn fraction_of(digits: &[u8]) -> u64
    requires { list_all digit digits.now ≡ true }
    ensures value { IsFraction digits.now result }
    ensures most { result ≤ 1000000 }
{
    let (front, rest) = digits.split_at(digits.len().min(6));
    let Some(number) = number_of(front) else {
        return 0;
    };
    let power = POWERS[front.len()];
    if has_zeros_alone(rest) {
        number * power
    } else {
        number * power + 1
    }
}

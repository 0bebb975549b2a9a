//! A word and a number of a line.
ghost use Rattle.std.specs.Prelude.{◌≡◌};
ghost use Rattle.report_text.specs.Readers.{IsNumberThen};
ghost use Rattle.live_text.specs.Readers.{IsFieldThen, IsLastOf};
ghost use Rattle.live_text.specs.Text.{mark};

use report_text::{count_then, number_then};

/// The fourth byte, which tells the lines apart, and the commands, or 0 where there is none.
pub(crate) fn mark_of(bytes: &[u8]) -> u8
    ensures { result ≡ mark bytes.now }
{
    match bytes.get(3) {
        Some(byte) => *byte,
        None => 0,
    }
}

/// The number of at most `most` that the bytes begin with behind a space, and the bytes behind it.
fn up_to(bytes: &[u8], most: u64) -> Option<(u64, &[u8])>
    ensures { IsNumberThen (λ x. (x.0, x.1.now)) most bytes.now result }
{
    if most < 1 << 60 {
        return count_then(bytes, most);
    }
    let Some((number, rest)) = number_then(bytes, u128::from(most)) else {
        return None;
    };
    Some((number as u64, rest))
}

/// The number from `least` to `most` that the bytes begin with behind a word and a space, and the bytes behind it.
pub(crate) fn field_then<'a>(
    bytes: &'a [u8],
    word: &[u8],
    least: u64,
    most: u64,
) -> Option<(u64, &'a [u8])>
    ensures { IsFieldThen (λ x. (x.0, x.1.now)) word.now least most bytes.now result }
{
    let Some(digits) = bytes.strip_prefix(word) else {
        return None;
    };
    let Some((number, rest)) = up_to(digits, most) else {
        return None;
    };
    if number < least {
        return None;
    }
    Some((number, rest))
}

/// The number from `least` to `most` behind a word and a space, where the bytes are these alone.
pub(crate) fn last_of(bytes: &[u8], word: &[u8], least: u64, most: u64) -> Option<u64>
    ensures { IsLastOf word.now least most bytes.now result }
{
    let Some((number, rest)) = field_then(bytes, word, least, most) else {
        return None;
    };
    if rest.is_empty() { Some(number) } else { None }
}

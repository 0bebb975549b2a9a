//! The values of names and options.
ghost use Rattle.std.specs.Prelude.{◌≡◌, ◌<◌, ◌≤◌, ◌-◌, ◌^◌, ℕ, IfNone, IfSome, option_map};
ghost use Rattle.std.specs.List.{list_all};
ghost use Rattle.coflow_units.specs.declared.limits.TheConstants.{MAX_UNIT};
ghost use Rattle.command_words.specs.Jobs.{file_of, is_file_name, is_lower as lower, is_policy, seed_of};
ghost use Rattle.command_words.specs.Words.{IsSetting, fold_of, is_used};

use class_rates::Fold;
use coflow_units::{MAX_UNIT, UnitSize};
use text_fields::{is_number, number_of};

/// The name is not empty and is not `-`.
pub fn is_file_name(name: &str) -> bool
    ensures { result ≡ is_file_name name.now }
{
    !name.is_empty() && name != "-"
}

/// The name of a file, or `None` where the text is none.
pub(crate) fn file_of(text: &str) -> Option<&str>
    ensures { option_map (λ s. s.now) result ≡ file_of text.now }
{
    if is_file_name(text) {
        return Some(text);
    }
    None
}

/// The name is one that a ranker may have: from 1 to 16 lower-case letters.
pub(crate) fn is_policy(name: &str) -> bool
    ensures { result ≡ is_policy name.now }
{
    !name.is_empty() && name.len() <= 16 && has_lower_alone(name.as_bytes())
}

fn has_lower_alone(name: &[u8]) -> bool
    ensures { result ≡ list_all lower name.now }
{
    name.iter().all(|b| is_lower(*b))
}

/// A letter from a to z.
fn is_lower(byte: u8) -> bool
    ensures { result ≡ lower byte }
{
    byte >= b'a' && byte <= b'z'
}

/// The number of one or more decimal digits, below 2^64, or `None` where the text is none.
pub(crate) fn seed_of(text: &str) -> Option<u64>
    ensures { result ≡ seed_of text.now }
{
    if !is_number(text.as_bytes()) {
        return None;
    }
    text.parse::<u64>().ok()
}

/// The number that an option is given, which is one or more decimal digits and from 1 to `most`, or its default where
/// the option is not used. `None` for another text.
pub fn setting_of(text: Option<&str>, most: u64, default: u64) -> Option<u64>
    requires { most < 2 ^ 64 - 1 }
    ensures some { IfSome result (IsSetting most default (option_map (λ s. s.now) text.entry)) }
    ensures least { 1 ≤ default → IfSome result (λ n. 1 ≤ n) }
    ensures within { default ≤ most → IfSome result (λ n. n ≤ most) }
    ensures none { IfNone result ((n : ℕ) → IsSetting most default (option_map (λ s. s.now) text.entry) n → ⊥) }
{
    let Some(text) = text else {
        return Some(default);
    };
    let number = number_of(text.as_bytes())?;
    if number < 1 || number > most {
        return None;
    }
    Some(number)
}

/// The size of a unit that an option is given in megabytes, or one megabyte where the option is not used. `None` for
/// another text.
pub fn unit_of(text: Option<&str>) -> Option<UnitSize>
    ensures some { IfSome result (λ unit. IsSetting MAX_UNIT 1 (option_map (λ s. s.now) text.entry) unit.megabytes) }
    ensures none { IfNone result ((n : ℕ) → IsSetting MAX_UNIT 1 (option_map (λ s. s.now) text.entry) n → ⊥) }
{
    let megabytes = setting_of(text, MAX_UNIT, 1)?;
    Some(UnitSize { megabytes })
}

/// The way to fold that an option is given, `count` or `load`, or by count where the option is not used. `None` for
/// another text.
pub(crate) fn fold_of(text: Option<&str>) -> Option<Fold>
    ensures { result ≡ fold_of (option_map (λ s. s.now) text.entry) }
{
    let Some(text) = text else {
        return Some(Fold::Count);
    };
    match text {
        "count" => Some(Fold::Count),
        "load" => Some(Fold::Load),
        _ => None,
    }
}

/// Whether a flag is used, by the value that the parser gives it.
pub fn is_used(value: Option<&str>) -> bool
    ensures { result ≡ is_used (option_map (λ s. s.now) value.entry) }
{
    match value {
        Some(text) => text == "true",
        None => false,
    }
}

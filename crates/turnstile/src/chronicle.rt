//! What a value behind a turnstile means.
ghost use Rattle.std.specs.Prelude.{ℕ, List};

/// A value that means a list of entries and a setting. It has no calls: the list and the setting are what contracts
/// see.
pub trait Chronicle {
    /// What a caller adds to the list.
    type Entry;

    /// Plain data that the value has from the start.
    type Setting;

    /// The number of the caller that made the entry.
    ghost by: { Self.Entry → ℕ };

    /// The entries, the first one first.
    ghost entries: { Self → List Self.Entry };

    /// What no turn changes.
    ghost setting: { Self → Self.Setting };
}

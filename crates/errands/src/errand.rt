//! What an errand is.
/// A value with which a helper is to do something. It has no calls: contracts see what may be given, and what is made
/// of it.
pub trait Errand {
    /// What givers and helpers know from the start.
    type About;

    /// The value may be given.
    ghost fits: { Self.About → Self → Type 0 };

    /// The second value is what a helper may make of the first.
    ghost done: { Self.About → Self → Self → Type 0 };
}

//! What an end of a tray knows, and the rule of the tray. Views stand in proofs alone: no value of these types is made.
use crate::errand::Errand;
use atomic_table::{Seat, Shared, TableRule};

pub enum Stage<T> {
    /// Nothing is given to this end, and nothing by it.
    Free,
    /// This was given, and has not come back.
    Busy(T),
    /// Nothing is given any more.
    Over,
}

pub enum Role {
    Giver,
    Helper,
}

pub struct View<T, K> {
    pub role: Role,
    pub stage: Stage<T>,
    pub about: K,
}

/// The rule of a tray.
pub struct Errands;

impl<T: Errand> TableRule<Option<T>, View<T, T::About>, T::About> for Errands {
    ghost use Rattle.errands.specs.Rule.{Kept, first_view};

    ghost holds = { Kept T.fits T.done };

    ghost first = { first_view };
}

/// The table as both ends share it.
pub type Steps<T> = Shared<Option<T>, View<T, <T as Errand>::About>, <T as Errand>::About, Errands>;

/// A place at a tray.
pub type Place<T> = Seat<Option<T>, View<T, <T as Errand>::About>>;

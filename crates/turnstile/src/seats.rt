//! The root, the seats that it makes, and the turn that one of them has.
ghost use Rattle.std.specs.Prelude.{◌≡◌, ◌≤◌, length};

use crate::chronicle::Chronicle;
use crate::steps::Place;
use std::marker::Model;

/// A caller's seat. It has a number from 1, and contracts see what it has seen and whether it has the turn.
/// A seat that is dropped never comes back to its root.
#[derive(Drop)]
pub struct TurnSeat<T: Chronicle> {
    pub(crate) place: Place<T>,
    pub(crate) number: u32,
}

impl<T: Chronicle> Model for TurnSeat<T> {
    ghost use Rattle.std.specs.Prelude.{◌≡◌};
    ghost use Rattle.std.specs.Option.{IsSome};
    ghost use Rattle.turnstile.specs.declared.view.Role.TheVariants.{Seat};
    ghost use Rattle.turnstile.specs.Models.{SeatModel, is_in_turn};
    ghost use Rattle.turnstile.specs.Tells.{Holds};

    ghost Value = { SeatModel T.Entry T.Setting };

    ghost view = { λ s. record {
      table = s.place.table_id;
      number = s.number;
      in_turn = is_in_turn s.place.me.0.stage;
      seen = s.place.me.0.seen;
      setting = s.place.me.0.setting;
    } };

    ghost invariant = { λ s. (s.place.me.0.role ≡ Seat s.number) × Holds s.place.me.0.stage s.place.me.1 ×
        IsSome s.place.me.0.setting };
}

/// The turnstile's first seat, with the number 0. It makes the other seats and takes them back.
#[derive(Drop)]
pub struct Root<T: Chronicle> {
    pub(crate) place: Place<T>,
    pub(crate) made: u32,
    pub(crate) back: u32,
}

impl<T: Chronicle> Model for Root<T> {
    ghost use Rattle.std.specs.Prelude.{◌≡◌, ◌≤◌, length};
    ghost use Rattle.std.specs.Option.{IsSome};
    ghost use Rattle.turnstile.specs.declared.view.Role.TheVariants.{Root};
    ghost use Rattle.turnstile.specs.Models.{RootModel, is_in_turn};
    ghost use Rattle.turnstile.specs.Tells.{Holds};

    ghost Value = { RootModel T.Entry T.Setting };

    ghost view = { λ s. record {
      table = s.place.table_id;
      in_turn = is_in_turn s.place.me.0.stage;
      seen = s.place.me.0.seen;
      made = s.place.me.0.made;
      back = s.place.me.0.back;
      setting = s.place.me.0.setting;
    } };

    ghost invariant = { λ s. (s.place.me.0.role ≡ Root) × (s.place.me.0.made ≡ s.made) ×
        (length s.place.me.0.back ≡ s.back) × Holds s.place.me.0.stage s.place.me.1 × (s.back ≤ s.made) ×
        IsSome s.place.me.0.setting };
}

impl<T: Chronicle> Root<T> {
    /// How many seats the root has made.
    pub fn made(&self) -> u32
        ensures made { result ≡ self.now.made }
    {
        self.made
    }

    /// How many seats came back to the root, at most as many as it has made.
    pub fn back(&self) -> u32
        ensures back { result ≡ length self.now.back }
        ensures few { result ≤ self.now.made }
    {
        self.back
    }
}

/// The value, out of the turnstile while its caller has the turn. Only `leave` and `leave_root` spend a turn.
pub struct Turn<T> {
    /// To be read and changed in place.
    pub value: T,
    pub(crate) due: Due,
}

/// A turn has to be given back, so this has neither `Clone` nor `Drop`.
pub(crate) struct Due;

//! What the contracts of the turnstile mean for the entries of one caller.
ghost use Rattle.std.specs.Prelude.{◌≡◌, ℕ, List};
ghost use Rattle.turnstile.specs.Histories.{GoesOn, made_by};

use crate::chronicle::Chronicle;

/// Where a list goes on after what a caller has seen with no entry of its number, its entries in the list are exactly
/// its entries among those that it has seen.
pub fn own_entries_are_seen<T: Chronicle>()
    ensures own { (list seen : List T.Entry) (number : ℕ) → GoesOn T.by list number seen →
        made_by T.by number list ≡ made_by T.by number seen }
{}

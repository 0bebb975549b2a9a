//! What each step tells the seat that takes it.
ghost use Rattle.turnstile.specs.Tells.{takes_ticket, looks, leaves, stays, learns, one_more, newcomer, same_view, note_of, hears, takes_in, spent};

use crate::chronicle::Chronicle;
use crate::view::View;
use atomic_table::{Join, Play, Split};

/// A ticket is taken.
pub struct Takes;

impl<T, E, C> Play<Option<T>, View<E, C>> for Takes {
    ghost then = { takes_ticket };
}

/// A seat that waits looks at what is served.
pub struct Looks;

impl<T: Chronicle> Play<Option<T>, View<T::Entry, T::Setting>> for Looks {
    ghost then = { looks T.by T.entries T.setting };
}

/// The turn ends.
pub struct Leaves;

impl<T: Chronicle> Play<Option<T>, View<T::Entry, T::Setting>> for Leaves {
    ghost then = { leaves T.entries };
}

/// A word that callers sleep on changes, which says nothing of tickets.
pub struct Marks;

impl<T, E, C> Play<Option<T>, View<E, C>> for Marks {
    ghost then = { stays };
}

/// A seat that does not wait looks at what is served, and sees what it was told.
pub struct Learns;

impl<T: Chronicle> Play<Option<T>, View<T::Entry, T::Setting>> for Learns {
    ghost then = { learns T.by };
}

/// The root makes a seat.
pub struct Another;

impl<E, C> Split<View<E, C>> for Another {
    ghost left = { one_more };

    ghost right = { newcomer };
}

/// A seat writes a note of what it has seen.
pub struct Writes;

impl<E, C> Split<View<E, C>> for Writes {
    ghost left = { same_view };

    ghost right = { note_of };
}

/// A seat reads a note.
pub struct Reads;

impl<E, C> Join<View<E, C>> for Reads {
    ghost both = { hears };

    ghost spent = { spent };
}

/// The root takes a seat back.
pub struct TakesBack;

impl<E, C> Join<View<E, C>> for TakesBack {
    ghost both = { takes_in };

    ghost spent = { spent };
}

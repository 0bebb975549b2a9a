//! What each step on a word tells the seat that takes it.
ghost use Rattle.rank_board.specs.Banks.{blank};
ghost use Rattle.rank_board.specs.Tells.{writes, raises, looks, reads, meets, same_view, newcomer, hears, without_right, right_of, takes_right};

use crate::view::View;
use atomic_table::{Join, Play, Split};

/// A word of the next version is written.
pub struct Writes;

impl Play<(), View> for Writes {
    ghost then = { writes };
}

/// The front is raised.
pub struct Raises;

impl Play<(), View> for Raises {
    ghost then = { raises };
}

/// A seat loads the front.
pub struct Looks;

impl Play<(), View> for Looks {
    ghost then = { looks };
}

/// A seat loads a rank word.
pub struct Reads;

impl Play<(), View> for Reads {
    ghost then = { reads };
}

/// A seat that may publish loads the front.
pub struct Meets;

impl Play<(), View> for Meets {
    ghost then = { meets };
}

/// One more seat, or a note, that has seen what this one has seen.
pub struct Another;

impl Split<View> for Another {
    ghost left = { same_view };

    ghost right = { newcomer };
}

/// A seat hears what a note has seen.
pub struct Hears;

impl Join<View> for Hears {
    ghost both = { hears };

    ghost spent = { blank };
}

/// A seat hands the right to publish on.
pub struct Gives;

impl Split<View> for Gives {
    ghost left = { without_right };

    ghost right = { right_of };
}

/// A seat takes the right to publish.
pub struct Takes;

impl Join<View> for Takes {
    ghost both = { takes_right };

    ghost spent = { blank };
}

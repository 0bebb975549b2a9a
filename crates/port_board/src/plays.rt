//! What each step on a word tells the seat that takes it.
ghost use Rattle.port_board.specs.Tells.{loads, draws, reads_length, counts, reports, posts, posts_again, poster_loads, takes_back, reads_sent, learns, note_of, hears, spent};
ghost use Rattle.port_board.specs.Views.{one_more, newcomer, takes_in};

use crate::view::View;
use atomic_table::{Join, Play, Split};

/// An agent loads a port word.
pub struct Loads;

impl Play<(), View> for Loads {
    ghost then = { loads };
}

/// An agent exchanges a granted word for a drawn one.
pub struct Draws;

impl Play<(), View> for Draws {
    ghost then = { draws };
}

/// An agent reads the length of the grant that it drew.
pub struct ReadsLength;

impl Play<(), View> for ReadsLength {
    ghost then = { reads_length };
}

/// An agent or the poster writes a count word.
pub struct Counts;

impl Play<(), View> for Counts {
    ghost then = { counts };
}

/// An agent stores a reported word, for the number that the count word holds.
pub struct Reports;

impl Play<(), View> for Reports {
    ghost then = { reports };
}

/// The poster stores a granted word.
pub struct Posts;

impl Play<(), View> for Posts {
    ghost then = { posts };
}

/// The poster stores a granted word whose length the count word holds already.
pub struct PostsAgain;

impl Play<(), View> for PostsAgain {
    ghost then = { posts_again };
}

/// The poster loads a port word.
pub struct PosterLoads;

impl Play<(), View> for PosterLoads {
    ghost then = { poster_loads };
}

/// The poster exchanges a granted word for 0.
pub struct TakesBack;

impl Play<(), View> for TakesBack {
    ghost then = { takes_back };
}

/// The poster reads the number that was reported.
pub struct ReadsSent;

impl Play<(), View> for ReadsSent {
    ghost then = { reads_sent };
}

/// The poster looks at a word after a seat came back.
pub struct Learns;

impl Play<(), View> for Learns {
    ghost then = { learns };
}

/// One more agent.
pub struct Another;

impl Split<View> for Another {
    ghost left = { one_more };

    ghost right = { newcomer };
}

/// A note of all posts so far.
pub struct Notes;

impl Split<View> for Notes {
    ghost left = { λ v. v };

    ghost right = { note_of };
}

/// An agent hears of the posts in a note.
pub struct Hears;

impl Join<View> for Hears {
    ghost both = { hears };

    ghost spent = { spent };
}

/// The poster takes the lists of an agent.
pub struct TakesIn;

impl Join<View> for TakesIn {
    ghost both = { takes_in };

    ghost spent = { spent };
}

//! The pulls that a seat made. They exist only in proofs.
ghost use Rattle.std.specs.Prelude.{◌≡◌, [], ◌∷◌, ◌++◌, List};
ghost use base.Fml.{ftrue};
ghost use Rattle.rank_board.specs.declared.pulls.Pull.{Pull};
ghost use Rattle.rank_board.specs.Pulls.{pulls_code};

use std::marker::Model;

/// The rank that a pull found, and the mark that its caller gave.
#[derive(Clone, Copy)]
pub struct Pull {
    pub version: u32,
    pub coflow: u32,
    /// From 1 on, and 0 where the coflow has none.
    pub rank: u32,
    pub mark: u32,
}

/// Pulls, oldest first. They have no bytes.
#[derive(Drop)]
pub struct Pulls {
    pub ghost list: { List Pull } by { pulls_code },
}

impl Model for Pulls {
    ghost also_owns = { λ _. ftrue };
}

impl Pulls {
    pub fn new() -> Pulls
        ensures { result.list ≡ [] }
    {
        Pulls {}
    }

    /// The pulls with one more.
    pub fn then(&self, _pull: &Pull) -> Pulls
        ensures { result.list ≡ self.now.list ++ _pull.now ∷ [] }
    {
        Pulls {}
    }
}

// Nothing of it belongs to a thread: it owns nothing.
unsafe impl Send for Pulls {}

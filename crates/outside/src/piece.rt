//! How many bytes one read gives at most.
ghost use Rattle.std.specs.Prelude.{◌≡◌, ◌≤◌};

/// A number of bytes that is at least 1.
#[derive(Clone, Copy, Drop)]
pub(crate) struct Piece {
    size: usize,
    ghost gives_some: { 1 ≤ size },
}

impl Piece {
    pub(crate) fn new(size: usize) -> Piece
        requires { 1 ≤ size }
        ensures { result.size ≡ size }
    {
        Piece { size }
    }

    pub(crate) fn size(self) -> usize
        ensures some { 1 ≤ result }
        ensures size { result ≡ self.size }
    {
        self.size
    }
}

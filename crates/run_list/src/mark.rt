//! How the flows of a run are kept.

/// A run as it is kept, without the numbers that tell its flows.
#[derive(Clone, Copy)]
pub(crate) struct Mark {
    /// How many slots it has.
    pub(crate) slots: u64,
    /// How many numbers tell its flows.
    pub(crate) size: u32,
    /// Whether these numbers are the flows. If not, they are those that stand in just one of this run and the run
    /// before it.
    pub(crate) whole: bool,
}

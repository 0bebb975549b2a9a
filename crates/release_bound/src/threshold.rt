//! When an arrival counts as late.
ghost use Rattle.std.specs.Prelude.{◌≡◌};
ghost use Rattle.release_bound.specs.ReleaseOrder.{quarters_of};

/// How many times the load of a port an arrival must be later than to count as late: where the threshold is above 0, it is
/// late where its slot is greater than so many times the load.
#[derive(Clone, Copy, Debug, PartialEq, Eq)]
pub enum Threshold {
    /// Every arrival is late, so each coflow pays for its earliest end alone.
    Zero,
    Half,
    ThreeQuarters,
    /// An arrival is late where its slot is greater than the load, so the whole load could be served before it.
    One,
    OneAndHalf,
    Two,
}

impl Threshold {
    /// All thresholds, the least first.
    pub const ALL: [Threshold; 6] = [
        Threshold::Zero,
        Threshold::Half,
        Threshold::ThreeQuarters,
        Threshold::One,
        Threshold::OneAndHalf,
        Threshold::Two,
    ];

    /// How many times the load, in quarters.
    pub(crate) fn quarters(self) -> u128
        ensures { result ≡ quarters_of self }
    {
        match self {
            Threshold::Zero => 0,
            Threshold::Half => 2,
            Threshold::ThreeQuarters => 3,
            Threshold::One => 4,
            Threshold::OneAndHalf => 6,
            Threshold::Two => 8,
        }
    }
}

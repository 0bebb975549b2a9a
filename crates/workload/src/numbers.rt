//! Random numbers.
ghost use Rattle.std.specs.Prelude.{◌≡◌, ◌<◌, ◌≤◌};
ghost use Rattle.workload.specs.Draws.{draw, next};

/// The multiplier that Knuth uses for MMIX (The Art of Computer Programming, volume 2, section 3.3.4).
const MULTIPLIER: u64 = 6_364_136_223_846_793_005;

/// The increment that Knuth uses for MMIX.
const INCREMENT: u64 = 1_442_695_040_888_963_407;

/// A linear congruential generator of 64 bits, of which the high 31 are used.
#[derive(Drop)]
pub(crate) struct Numbers {
    state: u64,
}

impl Numbers {
    /// The generator whose state is the seed.
    pub(crate) fn from_seed(seed: u64) -> Numbers
        ensures { result.state ≡ seed }
    {
        Numbers { state: seed }
    }

    /// A number below the given one, which is at least 1.
    pub(crate) fn draw(&mut self, below: u64) -> u64
        requires { 1 ≤ below }
        ensures state { self.new.state ≡ next self.old.state }
        ensures drawn { result ≡ draw below self.old.state }
        ensures range { result < below }
    {
        self.state = self.state.wrapping_mul(MULTIPLIER).wrapping_add(INCREMENT);
        (self.state >> 33) % below
    }
}

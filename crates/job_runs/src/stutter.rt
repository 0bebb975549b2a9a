//! A ranker that answers no order.
use rankers::{Facts, Ranker};

/// Answers 0 at every place.
#[derive(Drop)]
pub(crate) struct Stutter;

impl Ranker for Stutter {
    ghost use Rattle.std.specs.Prelude.{codes, replicate};
    ghost use Rattle.rankers.specs.FactsTold.{coflows_in};
    ghost use Rattle.rankers.specs.Kinds.{fixed};

    ghost meaning = { λ s. fixed (codes "stutter") (λ facts. replicate (coflows_in facts) 0) };

    fn name(&self) -> &str {
        "stutter"
    }

    fn rank(&mut self, _facts: &Facts, out: &mut [u32]) {
        out.fill(0);
    }

    fn note(&mut self, _coflow: u32, _slot: u64) {}
}

//! Rankers of the tests.
use rankers::{Facts, Fifo, Ranker, fill_by_key};
use std::cell::Cell;
use std::rc::Rc;

/// What was done with rankers: how often they were asked, told and dropped.
#[derive(Drop)]
pub(crate) struct Tally {
    pub(crate) asked: Cell<u32>,
    pub(crate) told: Cell<u32>,
    pub(crate) dropped: Cell<u32>,
}

impl Tally {
    pub(crate) fn new() -> Tally {
        Tally {
            asked: Cell::new(0),
            told: Cell::new(0),
            dropped: Cell::new(0),
        }
    }
}

/// One more.
fn raise(count: &Cell<u32>) {
    count.set(count.get().saturating_add(1));
}

/// Answers as `Fifo` does, and counts what is done with it.
pub(crate) struct Counting {
    pub(crate) tally: Rc<Tally>,
}

impl Drop for Counting {
    fn drop(self) {
        let Counting { tally } = self;
        raise(&tally.dropped);
    }
}

impl Ranker for Counting {
    ghost use Rattle.std.specs.Prelude.{codes};
    ghost use Rattle.rankers.specs.ByKey.{by_key, key_in};
    ghost use Rattle.rankers.specs.FactsTold.{coflows_in};
    ghost use Rattle.rankers.specs.Kinds.{fixed};

    ghost meaning = { λ s. fixed (codes "counting") (λ facts. by_key (key_in facts.arrivals) (coflows_in facts)) };

    fn name(&self) -> &str {
        "counting"
    }

    fn rank(&mut self, facts: &Facts, out: &mut [u32]) {
        raise(&self.tally.asked);
        let mut order = Fifo;
        order.rank(facts, out);
    }

    fn note(&mut self, _coflow: u32, _slot: u64) {
        raise(&self.tally.told);
    }
}

/// The first deadline first, as the comment of `fill_by_key` has it.
#[derive(Drop)]
pub(crate) struct Deadlines {
    pub(crate) slots: Vec<u64>,
}

impl Ranker for Deadlines {
    ghost use Rattle.std.specs.Prelude.{codes};
    ghost use Rattle.rankers.specs.ByKey.{by_key, key_in};
    ghost use Rattle.rankers.specs.FactsTold.{coflows_in};
    ghost use Rattle.rankers.specs.Kinds.{fixed};

    ghost meaning = { λ s. fixed (codes "deadlines") (λ facts. by_key (key_in s.slots.items) (coflows_in facts)) };

    fn name(&self) -> &str {
        "deadlines"
    }

    fn rank(&mut self, facts: &Facts, out: &mut [u32]) {
        let _few = facts.coflows(); // tells the proof that there are at most 4096
        fill_by_key(&self.slots, out);
    }

    fn note(&mut self, _coflow: u32, _slot: u64) {}
}

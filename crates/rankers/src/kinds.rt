//! The rankers.
ghost use Rattle.std.specs.Prelude.{◌≡◌, IfOk, replicate};
ghost use Rattle.rankers.specs.Kinds.{attained};

use crate::by_key::fill_by_key;
use crate::by_ratio::fill_by_ratio;
use crate::facts::Facts;
use crate::ranker::Ranker;
use coflow_units::NoMemory;
use std::alloc::Global;

/// The order by bottleneck, select, scale, iterate (Agarwal, Rajakrishnan, Narayan, Agarwal, Shmoys and Vahdat,
/// "Sincronia: near-optimal network design for coflows", SIGCOMM 2018). Its name is `bssi`.
#[derive(Drop)]
pub struct Bssi0;

impl Ranker for Bssi0 {
    ghost use Rattle.rankers.specs.Kinds.{bssi};

    ghost meaning = { λ s. bssi };

    fn name(&self) -> &str {
        "bssi"
    }

    fn rank(&mut self, facts: &Facts, out: &mut [u32]) {
        out.copy_from_slice(facts.order());
    }

    fn note(&mut self, _coflow: u32, _slot: u64) {}
}

/// The smallest effective bottleneck first, and equal ones by number (Chowdhury, Zhong and Stoica, "Efficient coflow
/// scheduling with Varys", SIGCOMM 2014). Its name is `sebf`.
#[derive(Drop)]
pub struct Sebf;

impl Ranker for Sebf {
    ghost use Rattle.rankers.specs.Kinds.{sebf};

    ghost meaning = { λ s. sebf };

    fn name(&self) -> &str {
        "sebf"
    }

    fn rank(&mut self, facts: &Facts, out: &mut [u32]) {
        let _few = facts.coflows();
        fill_by_key(facts.bottlenecks(), out);
    }

    fn note(&mut self, _coflow: u32, _slot: u64) {}
}

/// The smallest bottleneck over weight first, exactly, and equal ones by number: Varys' smallest effective bottleneck
/// (Chowdhury, Zhong and Stoica, SIGCOMM 2014) for weighted coflows, as Smith's rule orders jobs of one machine (Smith,
/// "Various optimizers for single-stage production", Naval Research Logistics Quarterly 3, 1956). A coflow of weight 0
/// comes after all others. Its name is `wsebf`.
#[derive(Drop)]
pub struct Wsebf;

impl Ranker for Wsebf {
    ghost use Rattle.rankers.specs.Kinds.{wsebf};

    ghost meaning = { λ s. wsebf };

    fn name(&self) -> &str {
        "wsebf"
    }

    fn rank(&mut self, facts: &Facts, out: &mut [u32]) {
        let _few = facts.coflows();
        fill_by_ratio(facts, out);
    }

    fn note(&mut self, _coflow: u32, _slot: u64) {}
}

/// The first arrival first, and equal ones by number. Its name is `fifo`.
#[derive(Drop)]
pub struct Fifo;

impl Ranker for Fifo {
    ghost use Rattle.rankers.specs.Kinds.{fifo};

    ghost meaning = { λ s. fifo };

    fn name(&self) -> &str {
        "fifo"
    }

    fn rank(&mut self, facts: &Facts, out: &mut [u32]) {
        let _few = facts.coflows();
        fill_by_key(facts.arrivals(), out);
    }

    fn note(&mut self, _coflow: u32, _slot: u64) {}
}

/// The coflow with the least slot that was noted last comes first, and equal ones come by number: of coflows that end,
/// it keeps the ends of the schedule that it was told. Its name is `attained`.
#[derive(Drop)]
pub struct Attained {
    slots: Vec<u64>,
}

impl Attained {
    /// A ranker with room for the notes of the coflows below `room`. It was told nothing; the slot of a coflow that was
    /// not noted, or for which there is no room, counts as 0. The error is want of memory.
    pub fn new(alloc: Global, room: u32) -> Result<Attained, NoMemory>
        ensures slots { IfOk result (λ ranker. ranker.slots.items ≡ replicate room 0) }
        ensures meaning { IfOk result (λ ranker. ⟦<Attained as Ranker>⟧.meaning ranker ≡ attained (replicate room 0)) }
    {
        let slots = vec![in alloc; 0u64; room as usize]?;
        Ok(Attained { slots })
    }
}

impl Ranker for Attained {
    ghost use Rattle.rankers.specs.Kinds.{attained};

    ghost meaning = { λ s. attained s.slots.items };

    fn name(&self) -> &str {
        "attained"
    }

    fn rank(&mut self, facts: &Facts, out: &mut [u32]) {
        let _few = facts.coflows();
        fill_by_key(&self.slots, out);
    }

    fn note(&mut self, coflow: u32, slot: u64) {
        let place = coflow as usize;
        if place < self.slots.len() {
            self.slots[place] = slot;
        }
    }
}

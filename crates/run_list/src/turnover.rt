//! The flows that are gone with a run, and those that come.
ghost use Rattle.std.specs.Prelude.{◌≡◌, ◌+◌, ◌≤◌, ◌++◌, [], IfOk, length, vec_capacity};
ghost use Rattle.std.specs.List.Sorted.{IsStrictlyIncreasing};
ghost use Rattle.run_list.specs.Kept.{HasRoom, IsTurn};

use coflow_units::NoMemory;
use std::alloc::Global;

/// What changes from the flows of one run to those of the next.
#[derive(Drop)]
pub(crate) struct Turnover {
    /// The flows that the next run does not serve any longer.
    pub(crate) gone: Vec<u32>,
    /// The flows that it alone serves.
    pub(crate) come: Vec<u32>,
}

impl Turnover {
    /// No flow, and room for so many of both kinds. The error is want of memory.
    pub(crate) fn with_room(alloc: Global, flows: usize) -> Result<Turnover, NoMemory>
        ensures none { IfOk result (λ turnover. IsTurn turnover [] []) }
        ensures room { IfOk result (λ turnover. HasRoom turnover flows flows) }
    {
        let gone = Vec::with_capacity(alloc, flows)?;
        let come = Vec::with_capacity(alloc, flows)?;
        Ok(Turnover { gone, come })
    }

    /// Lets the flows go, and keeps the room.
    pub(crate) fn clear(&mut self)
        ensures gone { self.new.gone.items ≡ [] }
        ensures come { self.new.come.items ≡ [] }
        ensures gone_room { vec_capacity self.new.gone ≡ vec_capacity self.old.gone }
        ensures come_room { vec_capacity self.new.come ≡ vec_capacity self.old.come }
    {
        self.gone.clear();
        self.come.clear();
    }
}

/// Tells what changes from some flows to others, both ascending.
pub(crate) fn compare(before: &[u32], flows: &[u32], turnover: &mut Turnover)
    requires before { IsStrictlyIncreasing before.now }
    requires flows { IsStrictlyIncreasing flows.now }
    requires room { HasRoom turnover.old (length before.now) (length flows.now) }
    ensures turn { IsTurn turnover.new before.now flows.now }
    ensures gone_room { vec_capacity turnover.new.gone ≡ vec_capacity turnover.old.gone }
    ensures come_room { vec_capacity turnover.new.come ≡ vec_capacity turnover.old.come }
{
    turnover.clear();
    let mut place = 0;
    let mut next = 0;
    while place < before.len() && next < flows.len() {
        let old = before[place];
        let new = flows[next];
        if old == new {
            place += 1;
            next += 1;
        } else if old < new {
            turnover.gone.push_reserved(old);
            place += 1;
        } else {
            turnover.come.push_reserved(new);
            next += 1;
        }
    }
    push_all(&mut turnover.gone, &before[place..]);
    push_all(&mut turnover.come, &flows[next..]);
}

/// Appends numbers to a list that has room for them.
pub(crate) fn push_all(to: &mut Vec<u32>, numbers: &[u32])
    requires room { length to.old.items + length numbers.now ≤ vec_capacity to.old }
    ensures items { to.new.items ≡ to.old.items ++ numbers.now }
    ensures room { vec_capacity to.new ≡ vec_capacity to.old }
{
    for number in numbers {
        to.push_reserved(*number);
    }
}

//! The flows that owe, in the order in which they are granted.
ghost use Rattle.std.specs.Prelude.{◌≡◌, ℕ, ◌+◌, ◌<◌, ◌≤◌, ◌^◌, ◌==◌, if◌then◌else◌, List, All, IfOk, length, slice_index, slice_set};
ghost use Rattle.coflow_units.specs.declared.fabric.Flow.{Flow};
ghost use Rattle.coflow_units.specs.Flows.{IsDistinct};
ghost use Rattle.coflow_units.specs.Starts.{IsStarts};
ghost use Rattle.matching.specs.Ranking.{IsCoflowAt, IsRanking};
ghost use Rattle.matching.specs.Waits.{IsPushed};

use crate::stack::Stack;
use coflow_units::{Flow, NoMemory};
use std::alloc::Global;

/// In place of a rank: there is none.
pub const NONE: u32 = u32::MAX;

/// A flow at its place in the order.
#[derive(Clone, Copy, Debug, PartialEq, Eq)]
pub struct Ranked {
    /// The port at which it begins.
    pub first: u32,
    /// The port at which it ends. These come after all ports at which flows begin.
    pub second: u32,
    /// Its number among the flows.
    pub number: u32,
}

/// The flows that owe, by rank: the first `count` of `flows`. There are `ports` ports on each side.
#[derive(Drop)]
pub struct Ranks {
    /// How many ports each side has.
    pub ports: u32,
    /// How many flows owe.
    pub count: u32,
    /// By rank; what is behind the first `count` means nothing.
    pub flows: Vec<Ranked>,
    /// The ports at which they begin.
    pub sources: Stack,
}

impl Ranked {
    /// The other port of the flow, as seen from one of its ports.
    pub fn across(self, port: u32) -> u32
        ensures { result ≡ (if self.first == port then self.second else self.first) }
    {
        if self.first == port {
            self.second
        } else {
            self.first
        }
    }
}

impl Ranks {
    /// Takes the room for so many flows and for so many ports on each side. No flow owes. The error is want of memory.
    pub fn with_room(alloc: Global, flows: u32, ports: u32) -> Result<Ranks, NoMemory>
        ensures ports { IfOk result (λ r. r.ports ≡ ports) }
        ensures none { IfOk result (λ r. r.count ≡ 0) }
        ensures flows { IfOk result (λ r. length r.flows.items ≡ flows) }
        ensures sources { IfOk result (λ r. r.sources.room ≡ ports) }
    {
        let ranked = Ranked {
            first: 0,
            second: 0,
            number: 0,
        };
        let flows = vec![in alloc; ranked; flows as usize]?;
        let sources = Stack::with_room(alloc, ports)?;
        Ok(Ranks {
            ports,
            count: 0,
            flows,
            sources,
        })
    }

    /// Ranks the flows of the line that owe. `starts` has for each coflow the number of its first flow, and the number
    /// of flows at its end. `line` has the coflows in their order, each at most once, and `left` the units that each
    /// flow has left.
    pub fn rank(&mut self, flows: &[Flow], starts: &[u32], line: &[u32], left: &[u64])
        requires starts { IsStarts flows.now starts.now }
        requires distinct { IsDistinct line.now }
        requires coflows { All (λ c. c + 1 < length starts.now) line.now }
        requires left { length left.now ≡ length flows.now }
        requires few { length flows.now < 2 ^ 32 }
        requires room { length flows.now ≤ length self.old.flows.items }
        requires ports { self.old.ports + self.old.ports < 2 ^ 32 }
        requires ingress { All (λ (x : Flow). x.ingress < self.old.sources.room) flows.now }
        requires egress { All (λ (x : Flow). x.egress < self.old.ports) flows.now }
        ensures ports { self.new.ports ≡ self.old.ports }
        ensures source_room { self.new.sources.room ≡ self.old.sources.room }
        ensures len { length self.new.flows.items ≡ length self.old.flows.items }
        ensures ranking { IsRanking flows.now line.now (λ f. slice_index left.now f) (length line.now) 0 self.new }
    {
        self.count = 0;
        self.sources.clear();
        for coflow in line {
            let first = starts[*coflow as usize];
            let end = starts[*coflow as usize + 1];
            self.rank_coflow(flows, first, end, left);
        }
    }

    /// Ranks the flows from `first` on and below `end` that owe.
    fn rank_coflow(&mut self, flows: &[Flow], first: u32, end: u32, left: &[u64])
        requires end { end ≤ length flows.now }
        requires left { length left.now ≡ length flows.now }
        requires few { length flows.now < 2 ^ 32 }
        requires room { length flows.now ≤ length self.old.flows.items }
        requires ports { self.old.ports + self.old.ports < 2 ^ 32 }
        requires ingress { All (λ (x : Flow). x.ingress < self.old.sources.room) flows.now }
        requires egress { All (λ (x : Flow). x.egress < self.old.ports) flows.now }
        requires ranking { (line : List ℕ) × (k : ℕ) × IsCoflowAt flows.now line k first end ×
            IsRanking flows.now line (λ f. slice_index left.now f) k 0 self.old }
        ensures ports { self.new.ports ≡ self.old.ports }
        ensures source_room { self.new.sources.room ≡ self.old.sources.room }
        ensures len { length self.new.flows.items ≡ length self.old.flows.items }
        ensures ranking { (line : List ℕ) (k : ℕ) → IsCoflowAt flows.now line k first end →
            IsRanking flows.now line (λ f. slice_index left.now f) k 0 self.old →
            IsRanking flows.now line (λ f. slice_index left.now f) (k + 1) 0 self.new }
    {
        for number in first..end {
            if left[number as usize] == 0 {
                continue;
            }
            self.push(flows[number as usize], number);
        }
    }

    /// The flow has the next rank.
    fn push(&mut self, flow: Flow, number: u32)
        requires room { self.old.count < length self.old.flows.items }
        requires count { self.old.count + 1 < 2 ^ 32 }
        requires first { flow.ingress < self.old.sources.room }
        requires second { self.old.ports + flow.egress < 2 ^ 32 }
        ensures ports { self.new.ports ≡ self.old.ports }
        ensures source_room { self.new.sources.room ≡ self.old.sources.room }
        ensures source { IsPushed self.old.sources.ports self.new.sources.ports flow.ingress }
        ensures count { self.new.count ≡ self.old.count + 1 }
        ensures flows { self.new.flows.items ≡ slice_set self.old.flows.items self.old.count
            record { first = flow.ingress; second = self.old.ports + flow.egress; number = number } }
    {
        self.flows[self.count as usize] = Ranked {
            first: flow.ingress,
            second: self.ports + flow.egress,
            number,
        };
        self.count += 1;
        self.sources.push(flow.ingress);
    }
}

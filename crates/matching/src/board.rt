//! What is granted at each port.
ghost use Rattle.std.specs.Prelude.{◌≡◌, ℕ, ◌+◌, ◌<◌, ◌≤◌, ◌^◌, Contains, IfOk, length, replicate, slice_index};
ghost use Rattle.matching.specs.Board.{IsBoard, IsFreed, IsKeptBelow, IsPlaced, IsRanks, first_of, graph_of, no_rank, second_of};

use crate::ranks::{NONE, Ranks};
use crate::waiting::Waiting;
use coflow_units::NoMemory;
use std::alloc::Global;

/// For each port the rank that is granted there, or `NONE`, and the ports that wait.
#[derive(Drop)]
pub struct Board {
    /// For each port the rank that is granted there, or `NONE`: those of the first side, and then those of the second.
    pub at: Vec<u32>,
    /// The ports that wait for a look, under the same numbers.
    pub waiting: Waiting,
}

impl Board {
    /// Takes the room for so many ports on each side. Nothing is granted, and no port waits. The error is want of
    /// memory.
    pub fn with_room(alloc: Global, ports: u32) -> Result<Board, NoMemory>
        requires { ports + ports < 2 ^ 32 }
        ensures at { IfOk result (λ b. b.at.items ≡ replicate (ports + ports) no_rank) }
        ensures waiting { IfOk result (λ b. b.waiting.room ≡ ports + ports) }
    {
        let at = vec![in alloc; NONE; ports as usize + ports as usize]?;
        let waiting = Waiting::with_room(alloc, ports)?;
        Ok(Board { at, waiting })
    }

    /// Nothing is granted, and every port waits.
    pub fn clear(&mut self)
        requires few { length self.old.at.items < 2 ^ 32 }
        requires room { self.old.waiting.room ≡ length self.old.at.items }
        ensures room { self.new.waiting.room ≡ self.old.waiting.room }
        ensures len { length self.new.at.items ≡ length self.old.at.items }
        ensures none { (p : ℕ) → p < length self.old.at.items → slice_index self.new.at.items p ≡ NONE }
        ensures all { (p : ℕ) → p < length self.old.at.items → Contains self.new.waiting.ports p }
    {
        self.at.fill(NONE);
        for port in 0..self.at.len() as u32 {
            self.waiting.push(port);
        }
    }

    /// What is below the bound, a rank or `NONE`, stays, and all else goes out.
    pub fn keep_below(&mut self, bound: u32)
        ensures waiting { self.new.waiting ≡ self.old.waiting }
        ensures kept { IsKeptBelow self.old.at.items self.new.at.items bound }
    {
        for port in 0..self.at.len() {
            if self.at[port] < bound {
                continue;
            }
            self.at[port] = NONE;
        }
    }

    /// What stands at the port goes out at both of its ports, and its other port waits. The port is of either side. The
    /// board is one of these ranks.
    pub fn free(&mut self, ranks: &Ranks, port: u32)
        requires ranks { IsRanks ranks.now }
        requires board { IsBoard ranks.now.ports (graph_of ranks.now) self.old.at.items }
        requires room { self.old.waiting.room ≡ ranks.now.ports + ranks.now.ports }
        requires port { port < ranks.now.ports + ranks.now.ports }
        ensures room { self.new.waiting.room ≡ self.old.waiting.room }
        ensures board { IsBoard ranks.now.ports (graph_of ranks.now) self.new.at.items }
        ensures freed { IsFreed ranks.now.ports (graph_of ranks.now) self.old.at.items self.new.at.items
            self.old.waiting.ports self.new.waiting.ports port }
    {
        let rank = self.at[port as usize];
        if rank == NONE {
            return;
        }
        let flow = ranks.flows[rank as usize];
        self.at[flow.first as usize] = NONE;
        self.at[flow.second as usize] = NONE;
        self.waiting.push(flow.across(port));
    }

    /// The rank goes in at both of its ports, where later ranks or none stood. What stood there goes out, and the other
    /// ports of that wait. The board is one of these ranks.
    pub fn put(&mut self, ranks: &Ranks, rank: u32)
        requires ranks { IsRanks ranks.now }
        requires board { IsBoard ranks.now.ports (graph_of ranks.now) self.old.at.items }
        requires room { self.old.waiting.room ≡ ranks.now.ports + ranks.now.ports }
        requires rank { rank < ranks.now.count }
        requires first { rank < slice_index self.old.at.items (first_of ranks.now rank) }
        requires second { rank < slice_index self.old.at.items (second_of ranks.now rank) }
        ensures room { self.new.waiting.room ≡ self.old.waiting.room }
        ensures board { IsBoard ranks.now.ports (graph_of ranks.now) self.new.at.items }
        ensures placed { IsPlaced (graph_of ranks.now) self.old.at.items self.new.at.items
            self.old.waiting.ports self.new.waiting.ports rank }
    {
        let flow = ranks.flows[rank as usize];
        self.free(ranks, flow.first);
        self.free(ranks, flow.second);
        self.at[flow.first as usize] = rank;
        self.at[flow.second as usize] = rank;
    }
}

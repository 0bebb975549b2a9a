//! The tables of the grants that are kept.
ghost use Rattle.std.specs.Prelude.{◌≡◌, ◌≢◌, ℕ, ◌+◌, ◌-◌, ◌<◌, ◌≤◌, ◌^◌, ◌⊎◌, ◌==◌, ◌↔◌, if◌then◌else◌, List, [], All, Contains, IfOk, Some, length, slice_index, slice_set};
ghost use Rattle.coflow_units.specs.declared.fabric.Flow.{Flow};
ghost use Rattle.coflow_units.specs.Flows.{IsDistinct};
ghost use Rattle.coflow_units.specs.Starts.{IsStarts};
ghost use Rattle.coflow_units.specs.LeastLeft.{IsLeastLeft};
ghost use Rattle.matching.specs.Board.{Stands, first_of, graph_of};
ghost use Rattle.matching.specs.Listing.{HasListingRoom, IsListed};
ghost use Rattle.matching.specs.Ranking.{number_of};
ghost use Rattle.matching.specs.Matching.{IsBegun, IsGrantedAt, IsLess, IsMatching, IsRankTaken, IsRunLess, IsSameRoom, IsSettled, IsWhole, listed_in, ports_of, room_of};
ghost use Rattle.matching.specs.Sound.{IsSound, budget, left_at, rank_at};

use crate::board::Board;
use crate::heads::Heads;
use crate::listing::Listing;
use crate::ranks::{NONE, Ranks};
use coflow_units::{Flow, NoMemory};
use std::alloc::Global;

/// The flows that owe by rank, with the units that they have left, and what is granted.
#[derive(Drop)]
pub struct Tables {
    pub ranks: Ranks,
    /// By rank.
    pub left: Vec<u64>,
    pub heads: Heads,
    pub board: Board,
    pub listing: Listing,
    /// Each rank below this that owes is granted, or shares a port with a granted one that comes before it.
    pub settled: u32,
}

impl Tables {
    /// Takes the room for so many flows and for so many ports on each side. No flow owes. The error is want of memory.
    pub fn with_room(alloc: Global, flows: u32, ports: u32) -> Result<Tables, NoMemory>
        requires { ports + ports < 2 ^ 32 }
        ensures whole { IfOk result IsWhole }
        ensures room { IfOk result (λ m. room_of m ≡ flows) }
        ensures ports { IfOk result (λ m. ports_of m ≡ ports) }
        ensures none { IfOk result (λ m. listed_in m ≡ []) }
    {
        let left = vec![in alloc; 0u64; flows as usize]?;
        let Ok(board) = Board::with_room(alloc, ports) else {
            drop(left);
            return Err(NoMemory);
        };
        let Ok(listing) = Listing::with_room(alloc, ports) else {
            drop(left);
            drop(board);
            return Err(NoMemory);
        };
        let Ok(ranks) = Ranks::with_room(alloc, flows, ports) else {
            drop(left);
            drop(board);
            drop(listing);
            return Err(NoMemory);
        };
        let Ok(heads) = Heads::with_room(alloc, flows, ports) else {
            drop(left);
            drop(board);
            drop(listing);
            drop(ranks);
            return Err(NoMemory);
        };
        Ok(Tables {
            ranks,
            left,
            heads,
            board,
            listing,
            settled: 0,
        })
    }

    /// Begins with the flows of the line and the units that they have left, and grants them.
    pub fn begin(&mut self, flows: &[Flow], starts: &[u32], line: &[u32], left: &[u64])
        requires whole { IsWhole self.old }
        requires starts { IsStarts flows.now starts.now }
        requires distinct { IsDistinct line.now }
        requires coflows { All (λ c. c + 1 < length starts.now) line.now }
        requires left { length left.now ≡ length flows.now }
        requires ingress { All (λ (x : Flow). x.ingress < ports_of self.old) flows.now }
        requires egress { All (λ (x : Flow). x.egress < ports_of self.old) flows.now }
        requires room { length flows.now ≤ room_of self.old }
        ensures whole { IsWhole self.new }
        ensures room { room_of self.new ≡ room_of self.old }
        ensures ports { ports_of self.new ≡ ports_of self.old }
        ensures settled { IsSettled flows.now line.now (λ f. slice_index left.now f) self.new }
    {
        self.lay_out(flows, starts, line, left);
        self.repair();
    }

    /// Lays the tables out for the flows of the line and the units that they have left. Nothing is granted, and every
    /// port waits.
    fn lay_out(&mut self, flows: &[Flow], starts: &[u32], line: &[u32], left: &[u64])
        requires whole { IsWhole self.old }
        requires starts { IsStarts flows.now starts.now }
        requires distinct { IsDistinct line.now }
        requires coflows { All (λ c. c + 1 < length starts.now) line.now }
        requires left { length left.now ≡ length flows.now }
        requires ingress { All (λ (x : Flow). x.ingress < ports_of self.old) flows.now }
        requires egress { All (λ (x : Flow). x.egress < ports_of self.old) flows.now }
        requires room { length flows.now ≤ room_of self.old }
        ensures room { IsSameRoom self.old self.new }
        ensures begun { IsBegun flows.now line.now (λ f. slice_index left.now f) self.new }
    {
        self.ranks.rank(flows, starts, line, left);
        self.copy_left(left);
        self.heads.fill(&self.ranks);
        self.board.clear();
        self.listing.clear();
        self.settled = 0;
    }

    /// Takes the units that each ranked flow has left.
    fn copy_left(&mut self, left: &[u64])
        requires fits { self.old.ranks.count ≤ length self.old.ranks.flows.items }
        requires room { self.old.ranks.count ≤ length self.old.left.items }
        requires known { (r : ℕ) → r < self.old.ranks.count → number_of self.old.ranks r < length left.now }
        ensures ranks { self.new.ranks ≡ self.old.ranks }
        ensures heads { self.new.heads ≡ self.old.heads }
        ensures board { self.new.board ≡ self.old.board }
        ensures listing { self.new.listing ≡ self.old.listing }
        ensures len { length self.new.left.items ≡ length self.old.left.items }
        ensures left { (r : ℕ) → r < self.old.ranks.count →
            left_at self.new r ≡ slice_index left.now (number_of self.old.ranks r) }
    {
        for rank in 0..self.ranks.count as usize {
            self.left[rank] = left[self.ranks.flows[rank].number as usize];
        }
    }

    /// Repairs the grants, and lists them.
    pub fn repair(&mut self)
        requires sound { IsSound self.old (λ p. Contains self.old.board.waiting.ports p) }
        requires listing { IsListed self.old.ranks self.old.listing }
        requires few { self.old.ranks.ports < 2 ^ 32 }
        requires listing_room { HasListingRoom self.old.ranks.ports self.old.listing }
        ensures sound { IsSound self.new (λ p. Contains self.new.board.waiting.ports p) }
        ensures room { IsSameRoom self.old self.new }
        ensures listing { IsListed self.new.ranks self.new.listing }
        ensures settled { (flows : List Flow) (line : List ℕ) (left : ℕ → ℕ) → IsMatching flows line left self.old →
            IsSettled flows line left self.new }
    {
        self.settle();
        let ports = self.ranks.ports as usize;
        self.listing.update(&self.ranks, &self.board.at[..ports]);
    }

    /// The flow that is granted at the ingress, if one is.
    pub fn at(&self, ingress: u32) -> Option<u32>
        requires { IsSound self.now (λ p. Contains self.now.board.waiting.ports p) }
        ensures { (f : ℕ) → (result ≡ Some f) ↔ IsGrantedAt self.now ingress f }
    {
        if ingress >= self.ranks.ports {
            return None;
        }
        let rank = self.board.at[ingress as usize];
        if rank == NONE {
            return None;
        }
        Some(self.ranks.flows[rank as usize].number)
    }

    /// The least units left among the granted flows, and 0 where nothing is granted.
    pub fn least_left(&self) -> u64
        requires { IsSound self.now (λ p. Contains self.now.board.waiting.ports p) }
        ensures { (flows : List Flow) (line : List ℕ) (left : ℕ → ℕ) → IsSettled flows line left self.now →
            IsLeastLeft left (listed_in self.now) result }
    {
        let mut least = 0;
        for ingress in self.ranks.sources.list() {
            let rank = self.board.at[*ingress as usize];
            if rank == NONE {
                continue;
            }
            let left = self.left[rank as usize];
            least = if least == 0 { left } else { least.min(left) };
        }
        least
    }

    /// The flow that is granted at the ingress loses so many units.
    pub fn take(&mut self, ingress: u32, units: u64)
        requires whole { IsWhole self.old }
        requires ingress { ingress < ports_of self.old }
        ensures whole { IsWhole self.new }
        ensures room { room_of self.new ≡ room_of self.old }
        ensures ports { ports_of self.new ≡ ports_of self.old }
        ensures others { (i f : ℕ) → i ≢ ingress → IsGrantedAt self.old i f → IsGrantedAt self.new i f }
        ensures matching { (flows : List Flow) (line : List ℕ) (left lower : ℕ → ℕ) (f : ℕ) →
            IsGrantedAt self.old ingress f → IsMatching flows line left self.old → IsLess left lower f units →
            IsMatching flows line lower self.new }
    {
        let rank = self.board.at[ingress as usize];
        if rank == NONE {
            return;
        }
        self.take_rank(rank, units);
    }

    /// Each granted flow loses so many units. Ports of flows that end wait so that the first of them is looked at
    /// first, which keeps the looks few.
    pub fn take_run(&mut self, units: u64)
        requires whole { IsWhole self.old }
        ensures whole { IsWhole self.new }
        ensures room { room_of self.new ≡ room_of self.old }
        ensures ports { ports_of self.new ≡ ports_of self.old }
        ensures matching { (flows : List Flow) (line : List ℕ) (left lower : ℕ → ℕ) →
            IsSettled flows line left self.old → IsRunLess left lower (listed_in self.old) units →
            IsMatching flows line lower self.new }
    {
        let mut source = self.ranks.sources.count();
        while source > 0 {
            source -= 1;
            let ingress = self.ranks.sources.list()[source as usize];
            let rank = self.board.at[ingress as usize];
            if rank == NONE {
                continue;
            }
            self.take_rank(rank, units);
        }
    }

    /// A granted flow loses so many units, or all that it has. Where none are left, it is not granted any longer.
    fn take_rank(&mut self, rank: u32, units: u64)
        requires sound { IsSound self.old (λ p. Contains self.old.board.waiting.ports p) }
        requires granted { Stands (graph_of self.old.ranks) self.old.board.at.items rank }
        ensures sound { IsSound self.new (λ p. Contains self.new.board.waiting.ports p) }
        ensures room { IsSameRoom self.old self.new }
        ensures ranks { self.new.ranks ≡ self.old.ranks }
        ensures listing { self.new.listing ≡ self.old.listing }
        ensures taken { IsRankTaken self.old self.new rank units }
    {
        let left = self.left[rank as usize];
        if left > units {
            self.left[rank as usize] = left - units;
            return;
        }
        self.end(rank);
    }

    /// A granted flow has no units left: it goes out, and both of its ports wait.
    fn end(&mut self, rank: u32)
        requires sound { IsSound self.old (λ p. Contains self.old.board.waiting.ports p) }
        requires granted { Stands (graph_of self.old.ranks) self.old.board.at.items rank }
        ensures sound { IsSound self.new (λ p. Contains self.new.board.waiting.ports p) }
        ensures room { IsSameRoom self.old self.new }
        ensures ranks { self.new.ranks ≡ self.old.ranks }
        ensures listing { self.new.listing ≡ self.old.listing }
        ensures left { self.new.left.items ≡ slice_set self.old.left.items rank 0 }
        ensures others { (p : ℕ) → p < self.old.ranks.ports → p ≢ first_of self.old.ranks rank →
            rank_at self.new p ≡ rank_at self.old p }
    {
        self.left[rank as usize] = 0;
        self.settled = self.settled.min(rank);
        let flow = self.ranks.flows[rank as usize];
        let next = self.heads.next[rank as usize];
        self.heads.replace(self.ranks.ports, flow, next);
        self.heads.rows.end(&self.ranks, rank);
        self.board.free(&self.ranks, flow.first);
        self.board.waiting.push(flow.first);
    }

    /// Looks at the ports that wait until none does, or passes all rows where that takes less time.
    fn settle(&mut self)
        requires { IsSound self.old (λ p. Contains self.old.board.waiting.ports p) }
        ensures sound { IsSound self.new (λ p. Contains self.new.board.waiting.ports p) }
        ensures settled { self.new.board.waiting.ports ≡ [] }
        ensures ranks { self.new.ranks ≡ self.old.ranks }
        ensures left { self.new.left ≡ self.old.left }
        ensures heads { self.new.heads ≡ self.old.heads }
        ensures listing { self.new.listing ≡ self.old.listing }
    {
        if self.favours_pass() {
            self.pass();
            return;
        }
        self.look_until_none_waits();
        self.settled = NONE;
    }

    /// Looks at the ports that wait until none does.
    fn look_until_none_waits(&mut self)
        requires { IsSound self.old (λ p. Contains self.old.board.waiting.ports p) }
        ensures sound { IsSound self.new (λ p. Contains self.new.board.waiting.ports p) }
        ensures settled { self.new.board.waiting.ports ≡ [] }
        ensures ranks { self.new.ranks ≡ self.old.ranks }
        ensures left { self.new.left ≡ self.old.left }
        ensures heads { self.new.heads ≡ self.old.heads }
        ensures listing { self.new.listing ≡ self.old.listing }
    {
        self.settled = 0;
        self.turn_to_first();
        while let Some(port) = self.board.waiting.pop() {
            self.look_at(port);
        }
    }

    /// Where that leaves fewer looks, all ports of the first side wait in place of those of the second side that do:
    /// each flow that may be to be had has a port of the first side.
    fn turn_to_first(&mut self)
        requires { IsSound self.old (λ p. Contains self.old.board.waiting.ports p) }
        ensures sound { IsSound self.new (λ p. Contains self.new.board.waiting.ports p) }
        ensures settled { self.new.settled ≡ self.old.settled }
        ensures ranks { self.new.ranks ≡ self.old.ranks }
        ensures left { self.new.left ≡ self.old.left }
        ensures heads { self.new.heads ≡ self.old.heads }
        ensures listing { self.new.listing ≡ self.old.listing }
    {
        let ports = self.ranks.ports;
        if !self.board.waiting.favours_first(ports) {
            return;
        }
        self.board.waiting.wait_first(ports);
    }

    /// Puts in the least rank that is to be had at the port, if there is one.
    fn look_at(&mut self, port: u32)
        requires sound { IsSound self.old (λ p. (p ≡ port) ⊎ Contains self.old.board.waiting.ports p) }
        requires port { port < self.old.ranks.ports + self.old.ranks.ports }
        requires settled { self.old.settled ≡ 0 }
        ensures sound { IsSound self.new (λ p. Contains self.new.board.waiting.ports p) }
        ensures settled { self.new.settled ≡ 0 }
        ensures budget { budget self.new ≤ budget self.old }
        ensures ranks { self.new.ranks ≡ self.old.ranks }
        ensures left { self.new.left ≡ self.old.left }
        ensures heads { self.new.heads ≡ self.old.heads }
        ensures listing { self.new.listing ≡ self.old.listing }
    {
        let rank = self.heads.look(&self.ranks, &self.board, port);
        if rank < self.board.at[port as usize] {
            self.board.put(&self.ranks, rank);
        }
    }
}

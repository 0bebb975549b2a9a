//! The ports to which the ranks of a row owe, 64 in one word.
ghost use Rattle.std.specs.Prelude.{◌≡◌, ◌≢◌, ℕ, ◌+◌, ◌*◌, ◌<◌, ◌≤◌, ◌++◌, IfOk, drop, length, replicate, true};
ghost use Rattle.matching.specs.Board.{IsRanks, graph_of};
ghost use Rattle.matching.specs.Rows.{GoesOn, HasLast, HoldsRows, IsBlank, IsLeastFree, IsOpen, IsRows, IsShaped};

use crate::ranks::Ranks;
use coflow_units::NoMemory;
use std::alloc::Global;

/// How many words a row may have at most where rows are passed.
pub const WORDS: usize = 32;

/// Ranks that follow one another are in one row where they begin at one port, and the ports at which they end rise. The
/// first ranks have rows, as far as the room goes.
#[derive(Drop)]
pub struct Rows {
    /// How many words of 64 ports a row has.
    pub width: u32,
    /// How many rows there are.
    pub count: u32,
    /// How many ranks have a row.
    pub ranked: u32,
    /// For each row the port at which its ranks begin.
    pub first: Vec<u32>,
    /// For each rank its row.
    pub row: Vec<u32>,
    /// Row by row, a bit for each port of the second side: 1 where a rank of the row ends there and owes.
    pub owes: Vec<u64>,
}

impl Rows {
    /// Takes the room for so many flows and for so many ports on each side: a word for each flow. No rank has a row.
    /// The error is want of memory.
    pub fn with_room(alloc: Global, flows: u32, ports: u32) -> Result<Rows, NoMemory>
        ensures shaped { IfOk result (λ x. IsShaped ports x) }
        ensures none { IfOk result (λ x. (x.count ≡ 0) × (x.ranked ≡ 0)) }
        ensures zeros { IfOk result (λ x. IsBlank x) }
    {
        let width = ports / 64 + 1;
        let most = flows / width;
        let first = vec![in alloc; 0u32; most as usize]?;
        let row = vec![in alloc; 0u32; flows as usize]?;
        let owes = vec![in alloc; 0u64; most as usize * width as usize]?;
        Ok(Rows {
            width,
            count: 0,
            ranked: 0,
            first,
            row,
            owes,
        })
    }

    /// Each rank owes: makes the rows of the first ranks, as far as the room goes.
    pub fn fill(&mut self, ranks: &Ranks)
        requires ranks { IsRanks ranks.now }
        requires holds { HoldsRows ranks.now.ports self.old }
        ensures rows { IsRows ranks.now.ports (graph_of ranks.now) (λ r. r + 1) self.new }
    {
        self.clear();
        for rank in 0..ranks.count {
            if !self.push(ranks, rank) {
                return;
            }
        }
    }

    /// No rank has a row any longer. Behind the rows in use no bit is set, so that those rows alone are cleared:
    /// where they are few, this takes little time, however great the room is.
    fn clear(&mut self)
        requires holds { (ports : ℕ) × HoldsRows ports self.old }
        ensures holds { (ports : ℕ) → HoldsRows ports self.old → HoldsRows ports self.new }
        ensures none { (self.new.count ≡ 0) × (self.new.ranked ≡ 0) }
    {
        let used = self.count as usize * self.width as usize;
        clear_front(&mut self.owes, used);
        self.count = 0;
        self.ranked = 0;
    }

    /// The next rank comes into a row. The answer tells whether there was room.
    fn push(&mut self, ranks: &Ranks, rank: u32) -> bool
        requires ranks { IsRanks ranks.now }
        requires rank { rank < ranks.now.count }
        requires next { self.old.ranked ≡ rank }
        requires rows { IsRows ranks.now.ports (graph_of ranks.now) (λ r. r + 1) self.old }
        requires last { HasLast self.old }
        ensures rows { IsRows ranks.now.ports (graph_of ranks.now) (λ r. r + 1) self.new }
        ensures next { result ≡ true → self.new.ranked ≡ rank + 1 }
        ensures last { result ≡ true → HasLast self.new }
    {
        if rank as usize >= self.row.len() {
            return false;
        }
        if !self.open(ranks, rank) {
            return false;
        }
        self.put(ranks, rank);
        true
    }

    /// The last row takes the next rank, or a new one does. The answer tells whether there is one.
    fn open(&mut self, ranks: &Ranks, rank: u32) -> bool
        requires ranks { IsRanks ranks.now }
        requires rank { rank < ranks.now.count }
        requires next { self.old.ranked ≡ rank }
        requires rows { IsRows ranks.now.ports (graph_of ranks.now) (λ r. r + 1) self.old }
        requires last { HasLast self.old }
        ensures rows { IsRows ranks.now.ports (graph_of ranks.now) (λ r. r + 1) self.new }
        ensures ranked { self.new.ranked ≡ self.old.ranked }
        ensures row { self.new.row ≡ self.old.row }
        ensures open { result ≡ true → IsOpen (graph_of ranks.now) self.new rank }
    {
        if Self::goes_on(ranks, rank) {
            return true;
        }
        if self.count as usize >= self.first.len() {
            return false;
        }
        self.first[self.count as usize] = ranks.flows[rank as usize].first;
        self.count += 1;
        true
    }

    /// The rank begins where the one before it does, and ends at a later port.
    fn goes_on(ranks: &Ranks, rank: u32) -> bool
        requires ranks { IsRanks ranks.now }
        requires rank { rank < ranks.now.count }
        ensures { result ≡ true → GoesOn (graph_of ranks.now) rank }
    {
        if rank == 0 {
            return false;
        }
        let before = ranks.flows[rank as usize - 1];
        let flow = ranks.flows[rank as usize];
        if before.first == flow.first {
            return before.second < flow.second;
        }
        false
    }

    /// The next rank is in the last row, and owes.
    fn put(&mut self, ranks: &Ranks, rank: u32)
        requires ranks { IsRanks ranks.now }
        requires rank { rank < ranks.now.count }
        requires room { rank < length self.old.row.items }
        requires next { self.old.ranked ≡ rank }
        requires rows { IsRows ranks.now.ports (graph_of ranks.now) (λ r. r + 1) self.old }
        requires open { IsOpen (graph_of ranks.now) self.old rank }
        ensures rows { IsRows ranks.now.ports (graph_of ranks.now) (λ r. r + 1) self.new }
        ensures next { self.new.ranked ≡ rank + 1 }
        ensures last { HasLast self.new }
    {
        let row = self.count - 1;
        let across = ranks.flows[rank as usize].second as usize - ranks.ports as usize;
        let word = row as usize * self.width as usize + across / 64;
        self.owes[word] |= 1 << (across % 64);
        self.row[rank as usize] = row;
        self.ranked = rank + 1;
    }
}

impl Rows {
    /// The rank owes no longer: its bit is cleared, where it has a row.
    pub fn end(&mut self, ranks: &Ranks, rank: u32)
        requires ranks { IsRanks ranks.now }
        requires rank { rank < ranks.now.count }
        requires rows { (left : ℕ → ℕ) × IsRows ranks.now.ports (graph_of ranks.now) left self.old }
        ensures rows { (left lower : ℕ → ℕ) → lower rank ≡ 0 → ((r : ℕ) → r ≢ rank → lower r ≡ left r) →
            IsRows ranks.now.ports (graph_of ranks.now) left self.old →
            IsRows ranks.now.ports (graph_of ranks.now) lower self.new }
    {
        if rank >= self.ranked {
            return;
        }
        let across = ranks.flows[rank as usize].second as usize - ranks.ports as usize;
        let word = self.row[rank as usize] as usize * self.width as usize + across / 64;
        self.owes[word] &= !(1 << (across % 64));
    }

    /// The first port of the second side, counted from 0, that is free and to which a rank of the row owes. `free` has
    /// a bit for each such port, 64 in one word, which is 1 where it is free.
    pub fn least_free(&self, row: u32, free: &[u64]) -> Option<u32>
        requires row { row < length self.now.first.items }
        requires words { length self.now.owes.items ≡ length self.now.first.items * self.now.width }
        requires width { self.now.width ≤ length free.now }
        requires few { length free.now ≤ WORDS }
        ensures { IsLeastFree self.now free.now row result }
    {
        let start = row as usize * self.width as usize;
        for word in 0..self.width {
            let both = self.owes[start + word as usize] & free[word as usize];
            if both > 0 {
                return Some(word * 64 + both.trailing_zeros());
            }
        }
        None
    }
}

/// So many words, the first ones, are 0 now.
fn clear_front(words: &mut [u64], used: usize)
    requires { used ≤ length words.old }
    ensures { words.new ≡ replicate used 0 ++ drop used words.old }
{
    words[..used].fill(0);
}

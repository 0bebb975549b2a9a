//! A pass over the rows, where many flows end at once.
ghost use Rattle.std.specs.Prelude.{◌≡◌, ℕ, ◌+◌, ◌*◌, ◌<◌, ◌≤◌, [], Contains, length, true};
ghost use Rattle.matching.specs.declared.rows.TheConstants.{WORDS};
ghost use Rattle.matching.specs.Board.{IsRanks, graph_of};
ghost use Rattle.matching.specs.Heads.{IsHeads};
ghost use Rattle.matching.specs.Rows.{IsRows, bit_of};
ghost use Rattle.matching.specs.Pass.{IsFreeBits, IsPassingIn};
ghost use Rattle.matching.specs.Sound.{IsSound, left_at};

use crate::ranks::NONE;
use crate::rows::WORDS;
use crate::tables::Tables;

/// The looks for a flow that ended take the time of so many words for each port.
const LOOKS: u64 = 4;

/// A row takes the time of so many words besides its own.
const ROW: u64 = 4;

/// The grants of a pass take the time of so many words for each port.
const GRANT: u64 = 16;

impl Tables {
    /// A pass over the rows from the first flow that ended on takes less time than looks at the ports that wait.
    /// So it is guessed, and right for either answer: where it is so, each rank has a row.
    pub fn favours_pass(&self) -> bool
        requires { self.now.heads.rows.ranked ≤ length self.now.heads.rows.row.items }
        ensures ranked { result ≡ true → self.now.heads.rows.ranked ≡ self.now.ranks.count }
        ensures width { result ≡ true → self.now.heads.rows.width ≤ WORDS }
        ensures some { result ≡ true → self.now.settled < self.now.ranks.count }
    {
        let rows = &self.heads.rows;
        if self.settled >= self.ranks.count || rows.width as usize > WORDS {
            return false;
        }
        if rows.ranked == self.ranks.count {
            let first = rows.row[self.settled as usize];
            let ports = self.ranks.ports as u64;
            let width = rows.width as u64 + ROW;
            let words = (rows.count.saturating_sub(first) as u64).saturating_mul(width);
            let looks = (self.board.waiting.second_count() as u64 * ports).saturating_mul(LOOKS);
            return looks > words.saturating_add(ports * GRANT);
        }
        false
    }

    /// Grants anew what comes from the first flow that ended on, row by row.
    pub fn pass(&mut self)
        requires sound { IsSound self.old (λ p. Contains self.old.board.waiting.ports p) }
        requires ranked { self.old.heads.rows.ranked ≡ self.old.ranks.count }
        requires width { self.old.heads.rows.width ≤ WORDS }
        requires some { self.old.settled < self.old.ranks.count }
        ensures sound { IsSound self.new (λ p. Contains self.new.board.waiting.ports p) }
        ensures settled { self.new.board.waiting.ports ≡ [] }
        ensures ranks { self.new.ranks ≡ self.old.ranks }
        ensures left { self.new.left ≡ self.old.left }
        ensures heads { self.new.heads ≡ self.old.heads }
        ensures listing { self.new.listing ≡ self.old.listing }
    {
        let mut free = [0u64; WORDS];
        self.board.keep_below(self.settled);
        let ports = self.ranks.ports as usize;
        mark_free(&self.board.at[ports..], &mut free);
        let first = self.heads.rows.row[self.settled as usize];
        for row in first..self.heads.rows.count {
            self.grant_row(row, &mut free);
        }
        self.board.waiting.clear();
        self.settled = NONE;
    }

    /// Where the port of the row is free, the first rank of the row that owes and finds its other port free goes in.
    fn grant_row(&mut self, row: u32, free: &mut [u64])
        requires ranks { IsRanks self.old.ranks }
        requires heads { IsHeads self.old.ranks.ports (graph_of self.old.ranks) (left_at self.old)
            self.old.heads.least.items }
        requires rows { IsRows self.old.ranks.ports (graph_of self.old.ranks) (left_at self.old) self.old.heads.rows }
        requires ranked { self.old.heads.rows.ranked ≡ self.old.ranks.count }
        requires row { row < self.old.heads.rows.count }
        requires room { self.old.board.waiting.room ≡ self.old.ranks.ports + self.old.ranks.ports }
        requires width { self.old.heads.rows.width ≤ length free.old }
        requires few { length free.old ≤ WORDS }
        requires passing { IsPassingIn self.old free.old row }
        ensures passing { IsPassingIn self.new free.new (row + 1) }
        ensures room { self.new.board.waiting.room ≡ self.old.board.waiting.room }
        ensures len { length free.new ≡ length free.old }
        ensures ranks { self.new.ranks ≡ self.old.ranks }
        ensures left { self.new.left ≡ self.old.left }
        ensures heads { self.new.heads ≡ self.old.heads }
        ensures listing { self.new.listing ≡ self.old.listing }
        ensures settled { self.new.settled ≡ self.old.settled }
    {
        let first = self.heads.rows.first[row as usize];
        if self.board.at[first as usize] < NONE {
            return;
        }
        let Some(across) = self.heads.rows.least_free(row, free) else {
            return;
        };
        let ports = self.ranks.ports as usize;
        let rank = self.heads.least[first as usize * ports + across as usize];
        self.board.at[first as usize] = rank;
        self.board.at[ports + across as usize] = rank;
        free[across as usize / 64] &= !(1 << (across % 64));
    }
}

/// Sets the bit of each port of the second side at which nothing stands.
fn mark_free(at: &[u32], free: &mut [u64])
    requires room { length at.now ≤ 64 * length free.old }
    requires none { (e : ℕ) → bit_of free.old 0 e ≡ 0 }
    ensures len { length free.new ≡ length free.old }
    ensures free { IsFreeBits at.now free.new }
{
    for port in 0..at.len() {
        let rank = at[port];
        if rank < NONE {
            continue;
        }
        free[port / 64] |= 1 << (port % 64);
    }
}

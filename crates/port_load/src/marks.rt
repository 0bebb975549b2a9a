//! Marks of the columns of each row of a table.
ghost use Rattle.std.specs.Prelude.{◌≡◌, ℕ, ◌<◌, ◌≤◌, IfOk};
ghost use Rattle.coflow_units.specs.declared.limits.TheConstants.{MAX_COFLOWS};
ghost use Rattle.port_load.specs.MarkTable.{HasShapeOf, mark_at};

use coflow_units::NoMemory;
use std::alloc::Global;
use std::marker::Model;

/// One mark for each row and column. A walk along a row looks at 64 columns at once.
///
/// Contracts see `Marks` as the numbers of rows and columns, and the words that hold the marks.
#[derive(Drop)]
pub(crate) struct Marks {
    rows: usize,
    columns: usize,
    /// Row by row, one bit for each column.
    words: Vec<u64>,
}

impl Model for Marks {
    ghost use Rattle.port_load.specs.MarkTable.{IsMarking, MarkTable};

    ghost Value = { MarkTable };

    ghost view = { λ s. record { rows = s.rows; columns = s.columns; words = s.words.items } };

    ghost invariant = { λ s. IsMarking s.rows s.columns s.words.items };
}

impl Marks {
    /// A table without marks. The error is want of memory.
    pub(crate) fn none(alloc: Global, rows: usize, columns: usize) -> Result<Marks, NoMemory>
        requires rows_limit { rows ≤ MAX_COFLOWS }
        requires columns_limit { columns ≤ MAX_COFLOWS }
        ensures rows_are { IfOk result (λ m. m.rows ≡ rows) }
        ensures columns_are { IfOk result (λ m. m.columns ≡ columns) }
    {
        let words = vec![in alloc; 0; rows * (columns / 64 + 1)]?;
        Ok(Marks {
            rows,
            columns,
            words,
        })
    }

    /// Takes all marks away.
    pub(crate) fn clear(&mut self)
        ensures shape { HasShapeOf self.old self.new }
    {
        self.words.fill(0);
    }

    /// Marks a column of a row. No mark goes.
    pub(crate) fn mark(&mut self, row: usize, column: usize)
        requires row_in { row < self.old.rows }
        requires column_in { column < self.old.columns }
        ensures shape { HasShapeOf self.old self.new }
        ensures marked { mark_at self.new row column ≡ 1 }
        ensures others { (r c : ℕ) → mark_at self.new r c ≡ 0 → mark_at self.old r c ≡ 0 }
    {
        let word = row * (self.columns / 64 + 1) + column / 64;
        self.words[word] |= 1 << (column % 64);
    }

    /// The first column of the row, from one on, that may be marked: no column before it is. The number of columns,
    /// where there is none.
    pub(crate) fn next(&self, row: usize, from: usize) -> usize
        requires row_in { row < self.now.rows }
        requires from_in { from ≤ self.now.columns }
        ensures after { from ≤ result }
        ensures within { result ≤ self.now.columns }
        ensures none { (c : ℕ) → from ≤ c → c < result → mark_at self.now row c ≡ 0 }
    {
        let first = row * (self.columns / 64 + 1);
        let mut column = from;
        'words: while column < self.columns {
            let word = self.words[first + column / 64] >> (column % 64);
            if word > 0 {
                return (column + word.trailing_zeros() as usize).min(self.columns);
            }
            column = (column / 64 + 1) * 64;
        }
        self.columns
    }
}

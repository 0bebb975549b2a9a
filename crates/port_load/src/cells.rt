//! A table of numbers that takes memory only for the blocks in which numbers were set.
ghost use Rattle.std.specs.Prelude.{◌≡◌, ◌≢◌, ◌+◌, ◌*◌, ◌/◌, ◌^◌, ◌<◌, ◌≤◌, IfOk, length, replicate, slice_index, slice_set};
ghost use Rattle.coflow_units.specs.declared.limits.TheConstants.{MAX_COFLOWS};
ghost use Rattle.port_load.specs.CellTable.{HasSizeOf, cells_in, no_block};

use coflow_units::NoMemory;
use std::alloc::Global;
use std::marker::Model;

/// A number for each row and column. Room is reserved for all blocks of 64 columns of a row, but a block is written
/// only once a number is set in it.
///
/// Contracts see `Cells` as the numbers of rows and columns, the blocks, and their numbers; `cells_in` lists the cells
/// row by row.
#[derive(Drop)]
pub(crate) struct Cells {
    rows: usize,
    columns: usize,
    /// Row by row, for each 64 columns, the number of their block; the greatest number where there is none.
    blocks: Vec<u32>,
    numbers: Vec<u64>,
}

impl Model for Cells {
    ghost use Rattle.std.specs.Prelude.{vec_capacity};
    ghost use Rattle.port_load.specs.CellTable.{CellTable, IsBlocks};

    ghost Value = { CellTable };

    ghost view = { λ s. record {
      rows = s.rows;
      columns = s.columns;
      blocks = s.blocks.items;
      numbers = s.numbers.items;
    } };

    ghost invariant = { λ s. IsBlocks s.rows s.columns s.blocks.items s.numbers.items (vec_capacity s.numbers) };
}

impl Cells {
    /// A table of zeros. The error is want of memory.
    pub(crate) fn zeros(alloc: Global, rows: usize, columns: usize) -> Result<Cells, NoMemory>
        requires rows_limit { rows ≤ MAX_COFLOWS }
        requires columns_limit { columns ≤ MAX_COFLOWS }
        ensures rows_are { IfOk result (λ t. t.rows ≡ rows) }
        ensures columns_are { IfOk result (λ t. t.columns ≡ columns) }
        ensures cells { IfOk result (λ t. cells_in t ≡ replicate (rows * columns) 0) }
    {
        let count = rows * (columns / 64 + 1);
        let blocks = vec![in alloc; u32::MAX; count]?;
        let numbers = Vec::with_capacity(alloc, 64 * count)?;
        Ok(Cells {
            rows,
            columns,
            blocks,
            numbers,
        })
    }

    pub(crate) fn get(&self, row: usize, column: usize) -> u64
        requires row_in { row < self.now.rows }
        requires column_in { column < self.now.columns }
        ensures { result ≡ slice_index (cells_in self.now) (row * self.now.columns + column) }
    {
        let block = self.blocks[row * (self.columns / 64 + 1) + column / 64];
        if block == u32::MAX {
            return 0;
        }
        self.numbers[64 * block as usize + column % 64]
    }

    pub(crate) fn set(&mut self, row: usize, column: usize, number: u64)
        requires row_in { row < self.old.rows }
        requires column_in { column < self.old.columns }
        ensures size { HasSizeOf self.old self.new }
        ensures cells { cells_in self.new ≡ slice_set (cells_in self.old) (row * self.old.columns + column) number }
    {
        let place = row * (self.columns / 64 + 1) + column / 64;
        self.open(place);
        self.set_in(place, row, column, number);
    }

    /// Adds to a number, and looks its block up once.
    pub(crate) fn add(&mut self, row: usize, column: usize, units: u64)
        requires row_in { row < self.old.rows }
        requires column_in { column < self.old.columns }
        requires fits { slice_index (cells_in self.old) (row * self.old.columns + column) + units < 2 ^ 64 }
        ensures size { HasSizeOf self.old self.new }
        ensures cells { cells_in self.new ≡ slice_set (cells_in self.old) (row * self.old.columns + column)
            (slice_index (cells_in self.old) (row * self.old.columns + column) + units) }
    {
        let place = row * (self.columns / 64 + 1) + column / 64;
        self.open(place);
        self.add_in(place, row, column, units);
    }

    /// Adds to a number in a block that is there.
    fn add_in(&mut self, place: usize, row: usize, column: usize, units: u64)
        requires row_in { row < self.old.rows }
        requires column_in { column < self.old.columns }
        requires place_is { place ≡ row * (self.old.columns / 64 + 1) + column / 64 }
        requires there { slice_index self.old.blocks place ≢ no_block }
        requires fits { slice_index (cells_in self.old) (row * self.old.columns + column) + units < 2 ^ 64 }
        ensures size { HasSizeOf self.old self.new }
        ensures cells { cells_in self.new ≡ slice_set (cells_in self.old) (row * self.old.columns + column)
            (slice_index (cells_in self.old) (row * self.old.columns + column) + units) }
    {
        self.numbers[64 * self.blocks[place] as usize + column % 64] += units;
    }

    /// Sets a number in a block that is there.
    fn set_in(&mut self, place: usize, row: usize, column: usize, number: u64)
        requires row_in { row < self.old.rows }
        requires column_in { column < self.old.columns }
        requires place_is { place ≡ row * (self.old.columns / 64 + 1) + column / 64 }
        requires there { slice_index self.old.blocks place ≢ no_block }
        ensures size { HasSizeOf self.old self.new }
        ensures cells { cells_in self.new ≡ slice_set (cells_in self.old) (row * self.old.columns + column) number }
    {
        self.numbers[64 * self.blocks[place] as usize + column % 64] = number;
    }

    /// Makes a block, of zeros, where there is none.
    fn open(&mut self, place: usize)
        requires place_in { place < length self.old.blocks }
        ensures size { HasSizeOf self.old self.new }
        ensures there { slice_index self.new.blocks place ≢ no_block }
        ensures cells { cells_in self.new ≡ cells_in self.old }
    {
        if self.blocks[place] < u32::MAX {
            return;
        }
        let block = self.numbers.len() / 64;
        for _count in 0..64usize {
            self.numbers.push_reserved(0);
        }
        self.blocks[place] = block as u32;
    }
}

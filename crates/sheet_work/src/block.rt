// The cells that `sum` takes: some that follow one another.
ghost use Rattle.std.specs.Prelude.{◌≡◌, ◌+◌, ◌<◌, ◌≤◌};
ghost use Rattle.std.specs.Option.{option_map};
ghost use Rattle.interfaces.specs.Cells.{cell_count, number_of};
ghost use Rattle.formula.specs.Grammar.{sum_limit};
ghost use Rattle.sheet_work.specs.Blocks.{block_of};

use interfaces::cell::{CELLS, Cell};

// the fewest and the most cells that `sum` takes
const LEAST: usize = 1;

const MOST: usize = 8;

/// At most 8 cells that follow one another. The type carries the proof that there are so many.
#[derive(Clone, Copy)]
pub struct Block {
    pub(crate) first: Cell,
    pub(crate) count: usize,
    ghost few: { count ≤ sum_limit },
    ghost inside: { number_of first + count ≤ cell_count },
}

impl Block {
    /// No cells, before the first one: their total is 0.
    pub fn empty(first: Cell) -> Block
        ensures first { result.first ≡ first }
        ensures none { result.count ≡ 0 }
    {
        let _ = first.number(); // the number of a cell is below CELLS
        Block { first, count: 0 }
    }

    /// So many cells from the first one on, if `sum` takes so many and there are so many.
    pub fn new(first: Cell, count: usize) -> Option<Block>
        ensures { option_map (λ b. (number_of b.first, b.count)) result ≡ block_of (number_of first) count }
    {
        if !(LEAST..=MOST).contains(&count) || first.number() + count > CELLS {
            return None;
        }
        Some(Block { first, count })
    }

    /// The first cell, or for no cells the one that they stand before.
    pub fn first(self) -> Cell
        ensures { result ≡ self.first }
    {
        self.first
    }

    /// How many cells they are.
    pub fn count(self) -> usize
        ensures { result ≡ self.count }
    {
        self.count
    }

    // The cell so many places behind the first one.
    pub(crate) fn cell(self, place: usize) -> Cell
        requires { place < self.count }
        ensures { number_of result ≡ number_of self.first + place }
    {
        Cell::new(self.first.number() + place).unwrap()
    }
}

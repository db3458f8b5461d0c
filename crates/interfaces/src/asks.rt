// What can be done with the cells that a run asks for. Assumes nothing.
ghost use Rattle.std.specs.Prelude.{◌≡◌, ◌≤◌, [], ◌∷◌, ◌++◌, length, take, nat_le};
ghost use Rattle.interfaces.specs.Cells.{ask_limit};
ghost use Rattle.interfaces.specs.Asks.{asked_cells};

use crate::asked::Asked;
use crate::cell::{ASKS, Cell};

impl Asked {
    /// The first eight of the cells, or all where they are fewer.
    pub fn new(cells: &[Cell]) -> Asked
        ensures { asked_cells result ≡ take ask_limit cells.now }
    {
        let len = cells.len().min(ASKS);
        let mut all = [Cell::FIRST; ASKS];
        all[..len].copy_from_slice(&cells[..len]);
        Asked { cells: all, len }
    }

    /// How many cells were asked for.
    pub fn len(&self) -> usize
        ensures count { result ≡ length (asked_cells self.now) }
        ensures bound { result ≤ ask_limit }
    {
        self.len // at most ASKS
    }

    /// Whether no cell was asked for.
    pub fn is_empty(&self) -> bool
        ensures { result ≡ nat_le (length (asked_cells self.now)) 0 }
    {
        self.len == 0
    }

    /// The cells.
    pub fn as_slice(&self) -> &[Cell]
        ensures cells { result.now ≡ asked_cells self.now }
        ensures short { length result.now ≤ ask_limit }
    {
        &self.cells[..self.len]
    }

    /// One cell more, at the end; a ninth is left out.
    pub fn push(&mut self, cell: Cell)
        ensures { asked_cells self.new ≡ take ask_limit (asked_cells self.old ++ (cell ∷ [])) }
    {
        if self.len < ASKS {
            self.cells[self.len] = cell;
            self.len += 1;
        }
    }
}

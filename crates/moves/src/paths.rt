// What can be done with the path of a query. Assumes nothing.
ghost use Rattle.std.specs.Prelude.{◌≡◌, ◌+◌, ◌-◌, ◌≤◌, min, false, T, [], ◌∷◌, ◌++◌, map, length, take};
ghost use Rattle.interfaces.specs.Cells.{cell_count, number_of};
ghost use Rattle.past.specs.Afresh.{In};
ghost use Rattle.moves.specs.Paths.{path_cells};

use crate::path::Path;
use interfaces::Cell;
use interfaces::cell::CELLS;

impl Path {
    /// No cell is being worked out.
    pub fn new() -> Path
        ensures { path_cells result ≡ [] }
    {
        Path {
            cells: [Cell::FIRST; CELLS],
            len: 0,
        }
    }

    /// How many cells are being worked out.
    pub fn len(&self) -> usize
        ensures count { result ≡ length (path_cells self.now) }
        ensures bound { result ≤ cell_count }
    {
        self.len // at most CELLS
    }

    /// The cells.
    pub fn as_slice(&self) -> &[Cell]
        ensures { result.now ≡ path_cells self.now }
    {
        &self.cells[..self.len]
    }

    /// Whether the cell is being worked out.
    pub fn holds(&self, cell: Cell) -> bool
        ensures yes { T result → In (number_of cell) (map number_of (path_cells self.now)) }
        ensures no { result ≡ false → In (number_of cell) (map number_of (path_cells self.now)) → ⊥ }
    {
        self.as_slice().contains(&cell)
    }

    /// One cell more, at the end; one that has no room is left out.
    pub fn push(&mut self, cell: Cell)
        ensures cells { path_cells self.new ≡ take cell_count (path_cells self.old ++ (cell ∷ [])) }
        ensures count { length (path_cells self.new) ≡ min cell_count (length (path_cells self.old) + 1) }
    {
        if self.len < CELLS {
            self.cells[self.len] = cell;
            self.len += 1;
        }
    }

    /// The last cell leaves, if there is one.
    pub fn pop(&mut self)
        ensures { path_cells self.new ≡ take (length (path_cells self.old) - 1) (path_cells self.old) }
    {
        if self.len > 0 {
            self.len -= 1;
        }
    }
}

// What one marking has found out of the cells: which reach the touched cell, and which do not. Assumes nothing.
ghost use Rattle.std.specs.Prelude.{◌≡◌, None, replicate, length, slice_set, slice_index_or};
ghost use Rattle.interfaces.specs.Cells.{cell_count, number_of};

use interfaces::Cell;
use interfaces::cell::CELLS;

/// The touched cell, and for each cell whether it reaches that one, or none where that is not found out yet.
#[derive(Drop)]
pub struct Known {
    touched: Cell,
    reaches: [Option<bool>; 256],
    ghost whole: { length reaches ≡ cell_count },
}

impl Known {
    /// Nothing is found out yet.
    pub fn new(touched: Cell) -> Known
        ensures of { result.touched ≡ touched }
        ensures nothing { result.reaches ≡ replicate cell_count None }
    {
        Known {
            touched,
            reaches: [None; CELLS],
        }
    }

    /// The touched cell.
    pub fn touched(&self) -> Cell
        ensures { result ≡ self.now.touched }
    {
        self.touched
    }

    /// What is found out of a cell.
    pub fn get(&self, cell: Cell) -> Option<bool>
        ensures { result ≡ slice_index_or self.now.reaches (number_of cell) None }
    {
        self.reaches[cell.number()]
    }

    /// Keeps what was found out of a cell.
    pub fn set(&mut self, cell: Cell, found: bool)
        ensures same { self.new.touched ≡ self.old.touched }
        ensures kept { self.new.reaches ≡ slice_set self.old.reaches (number_of cell) (Some found) }
    {
        let place = cell.number();
        self.reaches[place] = Some(found);
    }
}

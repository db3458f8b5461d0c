// The table of cell records: whether a cell is defined, its cause if it is in doubt, and the cells that it asked for.
// The structs alone: what is said of them in specs/ cannot be cited where they are declared.
#![tactic(auto)]

ghost use Rattle.std.specs.Prelude.{◌≡◌, length};
ghost use Rattle.interfaces.specs.Cells.{cell_count};

mod known;
pub mod rows;

use interfaces::{Asked, Cell};

/// What is known of one cell.
#[derive(Clone, Copy)]
pub struct Record {
    pub defined: bool, // the definition mark stands beside the cause: the record of a cell has both, by rule
    /// The cell whose touch put this one in doubt, or none where it is not in doubt.
    pub cause: Option<Cell>,
    /// The cells that the last finishing asked for.
    pub asked: Asked,
}

/// A record for each cell.
#[derive(Drop)]
pub struct Table {
    records: [Record; 256],
    ghost whole: { length records ≡ cell_count },
}

// Cells and the lengths that follow from their number.
ghost use Rattle.std.specs.Prelude.{◌≡◌, ℕ, ◌<◌};
ghost use Rattle.std.specs.Option.{option_map};
ghost use Rattle.interfaces.specs.Cells.{cell_count, ask_limit, text_limit, work_length, trace_length, definition_length, number_of, cell_numbered};

/// How many cells a workbook has. Every length below follows from it.
pub const CELLS: usize = 256;

/// How many asks one task may make.
pub const ASKS: usize = 8;

/// How many bytes a definition may have.
pub const TEXT: usize = 48;

/// Values lent to a query.
pub const WORK: usize = CELLS * ASKS;

/// Values for one trace of every cell.
pub const TRACE: usize = CELLS * (ASKS + 1);

/// Bytes for one definition of every cell.
pub const DEFINITIONS: usize = CELLS * TEXT;

/// One of the cells of a workbook.
#[derive(Clone, Copy, PartialEq, Eq)]
pub struct Cell(u8);

impl Cell {
    /// The first cell, which also fills places that are not used.
    pub const FIRST: Cell = Cell(0);

    /// The cell of a number, or none where the number is too large.
    pub fn new(number: usize) -> Option<Cell>
        ensures { option_map number_of result ≡ cell_numbered number }
    {
        if number < CELLS {
            Some(Cell(number as u8))
        } else {
            None
        }
    }

    pub fn number(self) -> usize
        ensures value { result ≡ number_of self }
        ensures bound { result < cell_count }
    {
        self.0 as usize
    }
}

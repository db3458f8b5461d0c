// The rows of all cells.
ghost use Rattle.std.specs.Prelude.{◌≡◌, ℕ, length, get_or, slice_index_or};
ghost use Rattle.interfaces.specs.Cells.{cell_count, number_of};
ghost use Rattle.rows.specs.Kept.{no_row, Cleared, Pushed};
ghost use Rattle.rows.specs.Rings.{before};

use crate::row::Row;
use interfaces::asked::Asked;
use interfaces::cell::{CELLS, Cell};

/// The row of a cell.
pub fn row_of<const D: usize>(rows: &[Row<D>; 256], cell: Cell) -> &Row<D>
    ensures row { result.now ≡ slice_index_or rows.now (number_of cell) (no_row D) }
    ensures size { length rows.now ≡ cell_count }
{
    &rows[cell.number()]
}

/// Forgets the traces of a cell.
pub fn clear_row<const D: usize>(rows: &mut [Row<D>; 256], cell: Cell)
    ensures { Cleared D (number_of cell) rows.old rows.new }
{
    rows[cell.number()].clear();
}

/// Puts one trace in front of those of a cell, and answers its place; at the full depth the oldest goes.
pub fn push_row<const D: usize>(rows: &mut [Row<D>; 256], cell: Cell, asked: Asked) -> usize
    ensures place { result ≡ before D (get_or rows.old (number_of cell) (no_row D)).newest }
    ensures rows { Pushed D (number_of cell) asked rows.old rows.new }
    ensures places { length (get_or rows.old (number_of cell) (no_row D)).asked ≡ D }
    ensures cells { length rows.old ≡ cell_count }
{
    rows[cell.number()].push(asked)
}

/// Rows that remember nothing.
pub fn fresh_rows<const D: usize>() -> [Row<D>; 256]
    ensures { (k : ℕ) → (get_or result k (no_row D)).count ≡ 0 }
{
    [Row::new(); CELLS]
}

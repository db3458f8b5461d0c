// What is held of one cell: its row, and lent memory that has for each place of the row a block of every cell.
// What passed its check carries the proof of its length in its type.
ghost use Rattle.std.specs.Prelude.{◌≡◌, ℕ, ◌*◌, ◌<◌, ◌≤◌, length};
ghost use Rattle.interfaces.specs.Cells.{trace_length};
ghost use Rattle.rows.specs.Blocks.{block_length};

use crate::row::Row;
use interfaces::asked::Asked;
use interfaces::cell::{ASKS, Cell};

/// The values of one trace: its answers, and its result at the end.
pub const BLOCK: usize = ASKS + 1;

/// The traces of a cell, at most D.
#[derive(Drop)]
pub struct Held<'a, V, const D: usize> {
    pub(crate) row: &'a Row<D>,
    pub(crate) values: &'a [V],
    pub(crate) cell: Cell,
    ghost room: { trace_length * D ≤ length values.now },
}

/// One of them: the cells that it asked for, and its block.
#[derive(Drop)]
pub struct Kept<'a, V> {
    pub(crate) asked: &'a Asked,
    pub(crate) block: &'a [V],
    ghost whole: { length block.now ≡ block_length },
}

// The table store: a value for each cell, in memory that its caller lends.
// The shield, which locks some cells of any store, is in a module of its own.
#![tactic(auto)]

ghost use Rattle.std.specs.Prelude.{◌≡◌, ℕ, ◌<◌, ◌≤◌, Bool, true, false, cond, length, slice_index_or};
ghost use Rattle.interfaces.specs.Cells.{cell_count};
ghost use Rattle.interfaces.specs.Refusals.{told};
ghost use Rattle.stores.specs.Tables.{checked};

pub mod shield;

use interfaces::cell::{CELLS, Cell};
use interfaces::memory::check_room;
use interfaces::refusal::Refusal;
use interfaces::store::Store;
use interfaces::value::Value;
pub use shield::Shield;

/// A store of which no cell is locked. What passed its check carries the proof of its length in its type.
#[derive(Drop)]
pub struct TableStore<'a, V> {
    values: &'a mut [V],
    ghost room: { cell_count ≤ length values.now },
}

impl<'a, V: Value> TableStore<'a, V> {
    /// Whether memory serves for a table store: it has a place for each cell.
    pub fn check(values: &[V]) -> Result<(), Refusal>
        ensures { told result ≡ checked (length values.now) }
    {
        check_room(values, CELLS)
    }

    /// The store over memory that has passed its check.
    pub fn new(values: &'a mut [V]) -> TableStore<'a, V>
        requires { cell_count ≤ length values.old }
        ensures holds { result.values.now ≡ values.old }
        ensures lent { result.values.ghost_name ≡ values.entry.ghost_name }
    {
        TableStore { values }
    }
}

// The value at a place. It is a function, since a store over lent memory passes the slice on, as the project has it.
fn at<V: Value>(values: &[V], place: usize) -> V
    requires { place < length values.now }
    ensures { result ≡ slice_index_or values.now place V.Value.blank }
{
    values[place]
}

impl<'a, V: Value> Store<V> for TableStore<'a, V> {
    ghost shows = { λ s k. slice_index_or s.values.now k V.Value.blank };

    ghost locked = { λ _ _. false };

    fn read(&self, cell: Cell) -> V {
        at(self.values, cell.number())
    }

    fn is_locked(&self, _cell: Cell) -> bool {
        false
    }

    fn write(&mut self, cell: Cell, value: V) -> Result<(), Refusal> {
        self.values[cell.number()] = value;
        Ok(())
    }
}

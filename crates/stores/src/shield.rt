// The shield: any store, with a set of its cells locked. Assumes nothing of the store but its contracts.
ghost use Rattle.std.specs.Prelude.{◌≡◌, ℕ, Bool, true, false, get_or, if◌then◌else◌, slice_index_or};
ghost use Rattle.stores.specs.Sets.{listed};

use interfaces::cell::{CELLS, Cell};
use interfaces::refusal::Refusal;
use interfaces::store::Store;
use interfaces::value::Value;

/// A store of which the cells of a set are locked, beside those that are locked below.
#[derive(Drop)]
pub struct Shield<S> {
    below: S,
    set: [bool; 256],
}

// The set of the cells that are listed.
fn set_of(cells: &[Cell]) -> [bool; 256]
    ensures { (k : ℕ) → slice_index_or result k false ≡ listed cells.now k }
{
    let mut set = [false; CELLS];
    for cell in cells {
        set[cell.number()] = true;
    }
    set
}

impl<S> Shield<S> {
    /// The store with these cells locked.
    pub fn new(below: S, cells: &[Cell]) -> Shield<S>
        ensures below { result.below ≡ below }
        ensures set { (k : ℕ) → slice_index_or result.set k false ≡ listed cells.now k }
    {
        Shield {
            below,
            set: set_of(cells),
        }
    }
}

impl<V: Value, S: Store<V>> Store<V> for Shield<S> {
    ghost shows = { λ s. S.Store.shows s.below };

    ghost locked = { λ s k. (if get_or s.set k false then true else S.Store.locked s.below k) };

    fn read(&self, cell: Cell) -> V {
        self.below.read(cell)
    }

    fn is_locked(&self, cell: Cell) -> bool {
        self.set[cell.number()] || self.below.is_locked(cell)
    }

    fn write(&mut self, cell: Cell, value: V) -> Result<(), Refusal> {
        if self.set[cell.number()] {
            return Err(Refusal::LockedCell);
        }
        self.below.write(cell, value)
    }
}

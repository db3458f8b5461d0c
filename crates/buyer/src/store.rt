// The store: values in memory that its caller lends. The cells from some number on were set at the factory: they are
// read like any other, and locked.
ghost use Rattle.std.specs.Prelude.{◌≡◌, ℕ, ◌≤◌, Bool, true, false, cond, length, nat_le, slice_index_or};
ghost use Rattle.interfaces.specs.Cells.{cell_count};
ghost use Rattle.interfaces.specs.Refusals.{told};
ghost use Rattle.whole.specs.Whole.{whole_blank};
ghost use Rattle.buyer.specs.Panel.{checked};

use interfaces::cell::{CELLS, Cell};
use interfaces::memory::check_room;
use interfaces::refusal::Refusal;
use interfaces::store::Store;
use whole::Whole;

/// A panel's values. What passed its check carries the proof of its length in its type.
#[derive(Drop)]
pub struct PanelStore<'a> {
    values: &'a mut [Whole],
    factory: usize,
    ghost room: { cell_count ≤ length values.now },
}

impl<'a> PanelStore<'a> {
    /// Whether memory serves: it has a place for each cell.
    pub fn check(values: &[Whole]) -> Result<(), Refusal>
        ensures { told result ≡ checked (length values.now) }
    {
        check_room(values, CELLS)
    }

    /// The store over memory that has passed its check; the cells from `factory` on are the factory's.
    pub fn new(values: &'a mut [Whole], factory: usize) -> PanelStore<'a>
        requires { cell_count ≤ length values.old }
        ensures holds { result.values.now ≡ values.old }
        ensures lent { result.values.ghost_name ≡ values.entry.ghost_name }
        ensures locks { result.factory ≡ factory }
    {
        PanelStore { values, factory }
    }
}

impl<'a> Store<Whole> for PanelStore<'a> {
    ghost shows = { λ s k. slice_index_or s.values.now k whole_blank };

    ghost locked = { λ s k. nat_le s.factory k };

    fn read(&self, cell: Cell) -> Whole {
        self.values[cell.number()]
    }

    fn is_locked(&self, cell: Cell) -> bool {
        cell.number() >= self.factory
    }

    fn write(&mut self, cell: Cell, value: Whole) -> Result<(), Refusal> {
        let place = cell.number();
        if place >= self.factory {
            return Err(Refusal::LockedCell);
        }
        self.values[place] = value;
        Ok(())
    }
}

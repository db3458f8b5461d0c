// Stores.
ghost use Rattle.std.specs.Prelude.{◌≡◌, ℕ, Bool, true, false, if◌then◌else◌, Ok, Err};
ghost use Rattle.interfaces.specs.Cells.{number_of, but};
ghost use Rattle.interfaces.specs.Refusals.{told, no};

use crate::cell::Cell;
use crate::refusal::Refusal;
use crate::value::Value;

/// A store: a value and a lock for each cell.
pub trait Store<V: Value> {
    ghost shows: { Self → ℕ → V };

    ghost locked: { Self → ℕ → Bool };

    fn read(&self, cell: Cell) -> V
        ensures { V.Value.canon result ≡ V.Value.canon (shows self.now (number_of cell)) };

    fn is_locked(&self, cell: Cell) -> bool
        ensures { result ≡ locked self.now (number_of cell) };

    fn write(&mut self, cell: Cell, value: V) -> Result<(), Refusal>
        ensures answer { told result ≡ (if locked self.old (number_of cell) then Err (no 3) else Ok tt) }
        ensures values { (k : ℕ) → V.Value.canon (shows self.new k) ≡ (if locked self.old (number_of cell) then V.Value.canon (shows self.old k) else but (number_of cell) (V.Value.canon value) (λ j. V.Value.canon (shows self.old j)) k) }
        ensures locks { (k : ℕ) → locked self.new k ≡ locked self.old k };
}

// Rebuilders.
ghost use Rattle.std.specs.Prelude.{◌≡◌, ℕ, List, []};
ghost use Rattle.interfaces.specs.Cells.{number_of, but};
ghost use Rattle.interfaces.specs.Refusals.{told};
ghost use Rattle.interfaces.specs.Tasks.{answer};
ghost use Rattle.interfaces.specs.Traces.{Trace, Bounded, plan_means, plan_for, recording, after_recording};

use crate::cell::Cell;
use crate::refusal::Refusal;
use crate::step::Plan;
use crate::value::Value;

/// A rebuilder: at most DEPTH traces for each cell, newest first.
pub trait Rebuilder<V: Value> {
    const DEPTH: usize;

    ghost depth: { ℕ };

    ghost traces: { Self → ℕ → List (Trace V) };

    ghost bounded: { (s : Self) (k : ℕ) → Bounded depth (traces s k) };

    fn depth_of() -> usize
        ensures { result ≡ depth };

    fn plan(&self, cell: Cell, cells: &[Cell], values: &[V]) -> Plan<V>
        ensures { plan_means V.Value.canon result ≡ plan_for V.Value.canon V.Value.alike (traces self.now (number_of cell)) cells.now values.now };

    fn record(&mut self, cell: Cell, cells: &[Cell], values: &[V], res: V) -> Result<(), Refusal>
        ensures answer { told result ≡ answer (recording V.Value.canon cells.now values.now res) }
        ensures traces { (k : ℕ) → traces self.new k ≡ after_recording depth (recording V.Value.canon cells.now values.now res) (number_of cell) (traces self.old) k };

    fn forget(&mut self, cell: Cell)
        ensures { (k : ℕ) → traces self.new k ≡ but (number_of cell) [] (traces self.old) k };

    fn wipe(&mut self)
        ensures { (k : ℕ) → traces self.new k ≡ [] };
}

// Languages.
ghost use Rattle.std.specs.Prelude.{◌≡◌, ℕ, List, map};
ghost use Rattle.std.proofs.Math.Option.{Option, none};
ghost use Rattle.interfaces.specs.Cells.{number_of, but};
ghost use Rattle.interfaces.specs.Refusals.{told};
ghost use Rattle.interfaces.specs.Tasks.{Def, Verdict, Own, step_means, step_of, placing, after_placing, answer};

use crate::cell::Cell;
use crate::refusal::Refusal;
use crate::step::Step;
use crate::value::Value;

/// A language: at most one definition for each cell.
pub trait Language<V: Value> {
    ghost means: { Self → ℕ → Option (Def V) };

    ghost stands: { List ℕ → Verdict V };

    ghost own: { (text : List ℕ) → Own (stands text) };

    fn step(&self, cell: Cell, answers: &[V]) -> Step<V>
        ensures { step_means V.Value.canon result ≡ step_of V.Value.blank (means self.now (number_of cell)) (map V.Value.canon answers.now) };

    fn place(&mut self, cell: Cell, text: &[u8]) -> Result<(), Refusal>
        ensures answer { told result ≡ answer (placing stands text.now) }
        ensures defs { (k : ℕ) → means self.new k ≡ after_placing (placing stands text.now) (number_of cell) (means self.old) k };

    fn remove(&mut self, cell: Cell)
        ensures { (k : ℕ) → means self.new k ≡ but (number_of cell) none (means self.old) k };

    fn wipe(&mut self)
        ensures { (k : ℕ) → means self.new k ≡ none };
}

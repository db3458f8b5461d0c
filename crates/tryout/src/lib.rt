// The smallest parts that keep the meanings of the interfaces, and code that is proved once over any parts.
// They show that the interfaces can be met and used; the product's own parts are elsewhere.
#![tactic(auto)]

ghost use Rattle.std.specs.Prelude.{◌≡◌, ℕ, ◌<◌, ◌≤◌, Bool, true, false, cond, List, [], ◌∷◌, map, length, None as Nothing, slice_index_or};
ghost use Rattle.interfaces.specs.Cells.{number_of};
ghost use Rattle.interfaces.specs.Refusals.{told};
ghost use Rattle.interfaces.specs.Tasks.{step_means, step_of};
ghost use Rattle.tryout.specs.Alias.{alias_stands, alias_of};
ghost use Rattle.tryout.specs.AliasFaults.{alias_own};
ghost use Rattle.tryout.specs.Ran.{Ran, Noted};

use interfaces::cell::{Cell, TEXT};
use interfaces::language::Language;
use interfaces::rebuilder::Rebuilder;
use interfaces::refusal::Refusal;
use interfaces::step::Step;
use interfaces::store::Store;
use interfaces::value::Value;
// the smallest rebuilder, which remembers nothing
pub use rebuilders::DirtyBits;

/// Cells that stand for other cells.
pub struct Aliases {
    targets: [Option<Cell>; 256],
}

// The step of a cell that stands for the target, if it does.
fn follow<V: Value>(target: Option<Cell>, answers: &[V]) -> Step<V>
    ensures { step_means V.Value.canon result ≡ step_of V.Value.blank (alias_of target) (map V.Value.canon answers.now) }
{
    let Some(c) = target else {
        return Step::Give(V::blank_value());
    };
    if answers.is_empty() {
        return Step::Ask(c);
    }
    Step::Give(answers[0])
}

impl<V: Value> Language<V> for Aliases {
    ghost means = { λ s k. alias_of (slice_index_or s.targets k Nothing) };

    ghost stands = { alias_stands };

    ghost own = { alias_own V };

    fn step(&self, cell: Cell, answers: &[V]) -> Step<V> {
        follow(self.targets[cell.number()], answers)
    }

    fn place(&mut self, cell: Cell, text: &[u8]) -> Result<(), Refusal> {
        if text.is_empty() || text.len() > TEXT {
            return Err(Refusal::TextLength);
        }
        if text.len() > 1 {
            return Err(Refusal::NotInLanguage(1));
        }
        self.targets[cell.number()] = Cell::new(usize::from(text[0]));
        Ok(())
    }

    fn remove(&mut self, cell: Cell) {
        self.targets[cell.number()] = None;
    }

    fn wipe(&mut self) {
        self.targets = [None; 256];
    }
}

/// Runs a task that asks for nothing: its value is stored, and its trace recorded. Proved once, over any parts.
pub fn run_plain<V: Value, S: Store<V>, L: Language<V>, R: Rebuilder<V>>(
    store: &mut S,
    language: &L,
    rebuilder: &mut R,
    cell: Cell,
) -> Result<bool, Refusal>
    ensures values { Ran V.Value.canon (S.Store.locked store.old (number_of cell)) (number_of cell) (step_of V.Value.blank (L.Language.means language.now (number_of cell)) []) (told result) (S.Store.shows store.old) (S.Store.shows store.new) }
    ensures traces { Noted R.Rebuilder.depth (number_of cell) (step_of V.Value.blank (L.Language.means language.now (number_of cell)) []) (told result) (R.Rebuilder.traces rebuilder.old) (R.Rebuilder.traces rebuilder.new) }
{
    match language.step(cell, &[]) {
        Step::Give(value) => {
            store.write(cell, value)?;
            rebuilder.record(cell, &[], &[], value)?;
            Ok(true)
        }
        _ => Ok(false),
    }
}

// What a cell in doubt does next.
ghost use Rattle.std.specs.Prelude.{◌≡◌, map, length, take};
ghost use Rattle.interfaces.specs.Asks.{asked_cells};
ghost use Rattle.interfaces.specs.Cells.{number_of};
ghost use Rattle.interfaces.specs.Tasks.{step_of};
ghost use Rattle.interfaces.specs.Traces.{plan_for};
ghost use Rattle.moves.specs.Moves.{step_move, move_of, turn_means, located_means};

use crate::answer::{Fault, Located};
use crate::lists::front;
use interfaces::{Asked, Cell, Language, Plan, Rebuilder, Step, Store, Value};
use parts::Parts;

/// What a cell in doubt does next.
pub enum Turn<V> {
    /// It keeps a result.
    Keep(V),
    /// Its run begins, with no answers.
    Begin,
    /// Its run has given a value.
    Give(V),
    /// It asks for a cell.
    Ask(Cell),
}

// The next step of a cell that runs.
fn run_step<V: Value, L: Language<V>>(
    language: &L,
    cell: Cell,
    chain: usize,
    answers: &[V],
) -> Result<Turn<V>, Located>
    ensures { located_means V.Value.canon result ≡ step_move cell chain (step_of V.Value.blank (L.Language.means language.now (number_of cell)) (map V.Value.canon answers.now)) }
{
    match language.step(cell, answers) {
        Step::Ask(asked) => Ok(Turn::Ask(asked)),
        Step::Give(value) => Ok(Turn::Give(value)),
        Step::Fault(fault) => Err(Located { fault, cell, chain }),
    }
}

/// The next turn of a cell in doubt after these asked cells and their answers, which stand in front of the working
/// list: by its step if it runs, else by the plan. No value goes with `running`, so an enum would be no plainer.
pub fn next_turn<V: Value, S: Store<V>, L: Language<V>, R: Rebuilder<V>>(
    parts: &Parts<S, L, R>,
    cell: Cell,
    chain: usize,
    asked: &Asked,
    work: &[V],
    running: bool,
) -> Result<Turn<V>, Fault>
    ensures { turn_means V.Value.canon result ≡ move_of cell chain running
        (plan_for V.Value.canon V.Value.alike (R.Rebuilder.traces parts.now.rebuilder (number_of cell)) (asked_cells asked.now) (take (length (asked_cells asked.now)) work.now))
        (step_of V.Value.blank (L.Language.means parts.now.language (number_of cell)) (map V.Value.canon (take (length (asked_cells asked.now)) work.now))) }
{
    let answers = front(work, asked.len());
    if running {
        return Ok(run_step(&parts.language, cell, chain, answers)?);
    }
    match parts.rebuilder.plan(cell, asked.as_slice(), answers) {
        Plan::Keep(value) => Ok(Turn::Keep(value)),
        Plan::Next(wanted) => Ok(Turn::Ask(wanted)),
        Plan::Run => Ok(Turn::Begin),
    }
}

// A whole list of calls since the making, and a last query. What is promised here rests on nothing that is hidden in a
// workbook: the past of the promise has exactly the calls of the list.
#![tactic(auto)]

ghost use Rattle.std.specs.Prelude.{◌≡◌, map, length};
ghost use Rattle.interfaces.specs.Cells.{cell_count, number_of};
ghost use Rattle.interfaces.specs.Refusals.{told};
ghost use Rattle.past.specs.Past.{query as Queries};
ghost use Rattle.engine.specs.Promise.{Promise};
ghost use Rattle.engine.specs.Shown.{shown_by};
ghost use Rattle.replay.specs.Replays.{request_of, Performs, Replays};

use engine::Workbook;
use interfaces::cell::CELLS;
use interfaces::{Cell, Language, Rebuilder, Refusal, Store, Value};
use scheduler::{Answer, Ran};

/// A call on a workbook.
#[derive(Clone, Copy)]
pub enum Call<'a, V> {
    Edit(Cell, V),
    Define(Cell, &'a [u8]),
    Clear(Cell),
    Query(Cell),
}

/// What a list of calls and a last query came to: the workbook, and the answer of the last query.
#[derive(Drop)]
pub struct Replayed<V, S, L, R> {
    pub workbook: Workbook<V, S, L, R>,
    pub answer: Result<Answer<V>, Refusal>,
}

// A query whose value, report and chain nobody looks at.
fn pass<V: Value, S: Store<V>, L: Language<V>, R: Rebuilder<V>>(
    workbook: &mut Workbook<V, S, L, R>,
    cell: Cell,
    work: &mut [V],
) -> Result<(), Refusal>
    ensures { Promise V.Value S.Store L.Language R.Rebuilder workbook.old workbook.new
        (Queries (number_of cell) (record { report = cell_count; chain = cell_count; work = length work.old })) (told result) }
{
    // fixed memory: lists as long as a query may need, which nobody reads
    let mut report = [Ran { cell, cause: cell }; CELLS];
    let mut chain = [cell; CELLS];
    workbook.query(cell, &mut report, &mut chain, work)?;
    Ok(())
}

// Performs one call.
fn perform<V: Value, S: Store<V>, L: Language<V>, R: Rebuilder<V>>(
    workbook: &mut Workbook<V, S, L, R>,
    call: &Call<'_, V>,
    work: &mut [V],
) -> Result<(), Refusal>
    ensures { Promise V.Value S.Store L.Language R.Rebuilder workbook.old workbook.new (request_of V.Value.canon (length work.old) call.now) (told result) }
{
    match call {
        Call::Edit(cell, value) => workbook.edit(*cell, *value),
        Call::Define(cell, text) => workbook.define(*cell, text),
        Call::Clear(cell) => workbook.clear(*cell),
        Call::Query(cell) => pass(workbook, *cell, work),
    }
}

/// Performs the calls one after another. What each answers is not looked at.
pub fn perform_all<V: Value, S: Store<V>, L: Language<V>, R: Rebuilder<V>>(
    workbook: &mut Workbook<V, S, L, R>,
    calls: &[Call<'_, V>],
    work: &mut [V],
)
    ensures { Performs V.Value.blank L.Language.stands R.Rebuilder.depth (map (request_of V.Value.canon (length work.old)) calls.now)
        (shown_by V.Value S.Store L.Language R.Rebuilder workbook.old)
        (shown_by V.Value S.Store L.Language R.Rebuilder workbook.new) }
{
    for call in calls {
        let _ = perform(workbook, call, work);
    }
}

/// Makes a workbook, performs the calls, and puts the last query.
pub fn replay<V: Value, S: Store<V>, L: Language<V>, R: Rebuilder<V>>(
    store: S,
    language: L,
    rebuilder: R,
    calls: &[Call<'_, V>],
    last: Cell,
    report: &mut [Ran],
    chain: &mut [Cell],
    work: &mut [V],
) -> Replayed<V, S, L, R>
    ensures { Replays V.Value.canon V.Value.blank (S.Store.locked store) L.Language.stands R.Rebuilder.depth
        (λ k. V.Value.canon (S.Store.shows store k)) (map (request_of V.Value.canon (length work.old)) calls.now)
        (Queries (number_of last) (record { report = length report.entry.now; chain = length chain.old; work = length work.old }))
        (record { report_before = report.entry.now; report_after = report.exit.now; chain_before = chain.old; chain_after = chain.new })
        result.answer (shown_by V.Value S.Store L.Language R.Rebuilder result.workbook) }
{
    let mut workbook = Workbook::new(store, language, rebuilder);
    perform_all(&mut workbook, calls, work);
    let answer = workbook.query(last, report, chain, work);
    Replayed { workbook, answer }
}

// The scheduler: a query brings its cell up to date, and whatever that needs.
#![tactic(auto)]

ghost use Rattle.std.specs.Prelude.{◌≡◌, ◌+◌, ◌-◌, ◌*◌, ◌≤◌, false, [], map, length};
ghost use Rattle.interfaces.specs.Cells.{cell_count, ask_limit, number_of};
ghost use Rattle.parts.specs.Shown.{shown};
ghost use Rattle.moves.specs.Paths.{path_cells};
ghost use Rattle.scheduler.specs.Outcomes.{outcome_of};
ghost use Rattle.scheduler.specs.Settling.{Leaves, Settles, Follows};
ghost use Rattle.scheduler.specs.Promise.{Comes};
ghost use Rattle.scheduler.specs.Lending.{Lends};

pub mod answer;

pub use answer::{Answer, Fault, Layer, Ran};
use interfaces::cell::{ASKS, CELLS, WORK};
use interfaces::memory::check_room;
use interfaces::{Asked, Cell, Language, Rebuilder, Refusal, Store, Value};
use moves::{
    AskFault, Path, Report, Turn, check_ask, conclude, end_doubt, in_doubt, next_turn, read_stored,
};
use parts::Parts;

// Brings a cell up to date. The path has the cells that are being worked out; a fault leaves them on it.
#[cycle(follow_settle)]
fn settle<V: Value, S: Store<V>, L: Language<V>, R: Rebuilder<V>>(
    parts: &mut Parts<S, L, R>,
    cell: Cell,
    path: &mut Path,
    report: &mut Report<'_>,
    work: &mut [V],
) -> Result<V, Fault>
    requires { (cell_count - length (path_cells path.old)) * ask_limit ≤ length work.old }
    ensures path { Leaves (path_cells path.old) (path_cells path.new) result }
    ensures lent { report.new.list.ghost_name ≡ report.old.list.ghost_name }
    ensures settles { Settles V.Value.blank R.Rebuilder.depth
        (shown V.Value S.Store L.Language R.Rebuilder parts.old)
        (shown V.Value S.Store L.Language R.Rebuilder parts.new)
        (map number_of (path_cells path.old)) (number_of cell)
        report.old.ran report.old.list.now report.new.ran report.new.list.now (outcome_of V.Value.canon (path_cells path.new) result) }
{
    if !in_doubt(&parts.table, cell) {
        return Ok(read_stored(&parts.store, cell));
    }
    // no cell is on the path twice, so that this way out is never taken
    if path.len() >= CELLS {
        return Err(AskFault::Circle.locate(cell, cell, path.len()));
    }
    path.push(cell);
    let value = follow(parts, cell, path, report, work)?;
    path.pop();
    Ok(value)
}

// Follows the cell in doubt that is last on the path to its end.
#[cycle(follow_settle)]
fn follow<V: Value, S: Store<V>, L: Language<V>, R: Rebuilder<V>>(
    parts: &mut Parts<S, L, R>,
    cell: Cell,
    path: &mut Path,
    report: &mut Report<'_>,
    work: &mut [V],
) -> Result<V, Fault>
    requires { (cell_count - length (path_cells path.old)) * ask_limit + ask_limit ≤ length work.old }
    ensures path { Leaves (path_cells path.old) (path_cells path.new) result }
    ensures lent { report.new.list.ghost_name ≡ report.old.list.ghost_name }
    ensures follows { Follows V.Value.blank R.Rebuilder.depth
        (shown V.Value S.Store L.Language R.Rebuilder parts.old)
        (shown V.Value S.Store L.Language R.Rebuilder parts.new)
        (map number_of (path_cells path.old)) (number_of cell) [] false
        report.old.ran report.old.list.now report.new.ran report.new.list.now (outcome_of V.Value.canon (path_cells path.new) result) }
{
    let mut asked = Asked::new(&[]);
    let mut running = false; // by which of the two, the plan or the step, it goes on
    loop {
        match next_turn(parts, cell, path.len(), &asked, work, running)? {
            Turn::Keep(value) => {
                end_doubt(parts, cell, value, asked);
                return Ok(value);
            }
            Turn::Begin => {
                asked = Asked::new(&[]);
                running = true;
            }
            Turn::Give(value) => {
                conclude(parts, cell, value, asked, report, work);
                return Ok(value);
            }
            Turn::Ask(wanted) => {
                check_ask(&parts.table, cell, wanted, path, &asked)?;
                let value = settle(parts, wanted, path, report, &mut work[ASKS..])?;
                work[asked.len()] = value;
                asked.push(wanted);
            }
        }
    }
}

// Refuses lists that do not suffice for a query.
fn check_lent<V>(report: &[Ran], chain: &[Cell], work: &[V]) -> Result<(), Refusal>
    ensures { Lends (record { report = length report.now; chain = length chain.now; work = length work.now }) result }
{
    check_room(report, CELLS)?;
    check_room(chain, CELLS)?;
    check_room(work, WORK)
}

/// The value of a cell, or its fault, with the runs that it took in the report list and the chain of a fault in the chain list.
/// The working list is free. Refused only where a list is shorter than stated.
pub fn query<V: Value, S: Store<V>, L: Language<V>, R: Rebuilder<V>>(
    parts: &mut Parts<S, L, R>,
    cell: Cell,
    report: &mut [Ran],
    chain: &mut [Cell],
    work: &mut [V],
) -> Result<Answer<V>, Refusal>
    ensures { Comes V.Value.canon V.Value.blank (S.Store.locked parts.old.store) L.Language.stands R.Rebuilder.depth
        (record {
          cell = number_of cell;
          lent = record { report = length report.entry.now; chain = length chain.old; work = length work.old };
          parts_before = parts.old;
          parts_after = parts.new;
          view_before = shown V.Value S.Store L.Language R.Rebuilder parts.old;
          view_after = shown V.Value S.Store L.Language R.Rebuilder parts.new;
          report_before = report.entry.now;
          report_after = report.exit.now;
          chain_before = chain.old;
          chain_after = chain.new;
          work_before = work.old;
          work_after = work.new;
        }) result }
{
    // every cell has a number below CELLS
    let _ = cell.number();
    check_lent(report, chain, work)?;
    // a cell that is not in doubt needs no path
    if !in_doubt(&parts.table, cell) {
        return Ok(Answer {
            outcome: Ok(read_stored(&parts.store, cell)),
            runs: 0,
        });
    }
    let mut path = Path::new();
    let mut report = Report::new(report);
    let outcome = settle(parts, cell, &mut path, &mut report, work);
    if let Err(fault) = outcome {
        chain[..fault.chain].copy_from_slice(path.as_slice());
    }
    Ok(Answer {
        outcome,
        runs: report.len(),
    })
}

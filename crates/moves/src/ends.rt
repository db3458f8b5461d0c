// How the doubt of a cell ends, and the report.
ghost use Rattle.std.specs.Prelude.{◌≡◌, map, length, take};
ghost use Rattle.interfaces.specs.Asks.{asked_cells};
ghost use Rattle.interfaces.specs.Cells.{number_of};
ghost use Rattle.table.specs.Records.{record_in};
ghost use Rattle.parts.specs.Shown.{shown};
ghost use Rattle.moves.specs.Moves.{run_of, Closes, Concludes, Joins};

use crate::answer::Ran;
use crate::lists::front;
use crate::report::Report;
use interfaces::{Asked, Cell, Language, Rebuilder, Store, Value};
use parts::Parts;
use table::{Record, Table};

/// The value is written, unless the cell is locked, and the doubt ends with these asked cells.
pub fn end_doubt<V: Value, S: Store<V>, L: Language<V>, R: Rebuilder<V>>(
    parts: &mut Parts<S, L, R>,
    cell: Cell,
    value: V,
    asked: Asked,
)
    ensures { Closes
        (shown V.Value S.Store L.Language R.Rebuilder parts.old)
        (shown V.Value S.Store L.Language R.Rebuilder parts.new)
        (number_of cell) (V.Value.canon value) (map number_of (asked_cells asked)) }
{
    let row = parts.table.get(cell);
    let _ = parts.store.write(cell, value);
    parts.table.change(
        cell,
        Record {
            cause: None,
            asked,
            ..row
        },
    );
}

/// The run of a cell in doubt joins the report, with its cause.
pub fn report_run(table: &Table, cell: Cell, report: &mut Report<'_>)
    ensures { Joins (run_of cell (record_in table.now (number_of cell)).cause) report.old report.new }
{
    if let Some(cause) = table.get(cell).cause {
        report.push(Ran { cell, cause });
    }
}

/// A run has given its value: its trace is recorded, it joins the report, the value is written, and the doubt ends. The
/// asked cells and as many values of the working list make the trace.
pub fn conclude<V: Value, S: Store<V>, L: Language<V>, R: Rebuilder<V>>(
    parts: &mut Parts<S, L, R>,
    cell: Cell,
    value: V,
    asked: Asked,
    report: &mut Report<'_>,
    work: &[V],
)
    ensures concludes { Concludes V.Value.canon R.Rebuilder.depth
        (shown V.Value S.Store L.Language R.Rebuilder parts.old)
        (shown V.Value S.Store L.Language R.Rebuilder parts.new)
        (number_of cell) (asked_cells asked) (take (length (asked_cells asked)) work.now) value }
    ensures report { Joins (run_of cell (record_in parts.old.table (number_of cell)).cause) report.old report.new }
{
    let answers = front(work, asked.len());
    let _ = parts
        .rebuilder
        .record(cell, asked.as_slice(), answers, value);
    report_run(&parts.table, cell, report);
    end_doubt(parts, cell, value, asked);
}

// Reading and changing records, and the marking after a touch.
ghost use Rattle.std.specs.Prelude.{◌≡◌, ℕ, ◌<◌, false, [], map, None as Nothing};
ghost use Rattle.std.proofs.Math.Option.{none};
ghost use Rattle.interfaces.specs.Cells.{cell_count, number_of, but};
ghost use Rattle.interfaces.specs.Asks.{asked_cells};
ghost use Rattle.table.specs.Records.{record_in, calm_record, marked_in, cause_in, asked_in};
ghost use Rattle.table.specs.Marks.{Marks, Grounded};
ghost use Rattle.table.specs.Walks.{Visits, VisitsAny, Turns};

use crate::known::Known;
use crate::{Record, Table};
use interfaces::cell::CELLS;
use interfaces::{Asked, Cell};

// Whether a record is of a defined cell that is not in doubt.
fn is_calm(row: Record) -> bool
    ensures { result ≡ calm_record row }
{
    row.defined && row.cause.is_none()
}

impl Record {
    /// The record of an input.
    pub fn blank() -> Record
        ensures plain { result.defined ≡ false }
        ensures sure { result.cause ≡ Nothing }
        ensures idle { asked_cells result.asked ≡ [] }
    {
        Record {
            defined: false,
            cause: None,
            asked: Asked::new(&[]),
        }
    }
}

impl Table {
    /// No cell is defined.
    pub fn new() -> Table
        ensures marks { (k : ℕ) → marked_in (record_in result) k ≡ false }
        ensures causes { (k : ℕ) → cause_in (record_in result) k ≡ none }
        ensures asked { (k : ℕ) → asked_in (record_in result) k ≡ [] }
    {
        Table {
            records: [Record::blank(); CELLS],
        }
    }

    /// The record of a cell.
    pub fn get(&self, cell: Cell) -> Record
        ensures row { result ≡ record_in self.now (number_of cell) }
        ensures bound { number_of cell < cell_count }
    {
        self.records[cell.number()]
    }

    /// Changes one record.
    pub fn change(&mut self, cell: Cell, row: Record)
        ensures { (k : ℕ) → record_in self.new k ≡ but (number_of cell) row (record_in self.old) k }
    {
        let place = cell.number();
        self.records[place] = row;
    }

    // Whether the cell `x` reaches the touched one by asked cells. What is found out is remembered, so that each record
    // is opened once; a way down has no more steps than there are cells, and `fuel` counts them.
    #[cycle(any_visit)]
    fn visit(&self, x: Cell, fuel: usize, known: &mut Known) -> bool
        ensures same { known.new.touched ≡ known.old.touched }
        ensures told { Visits (asked_in (record_in self.now)) (number_of known.old.touched) fuel (number_of x) known.old.reaches known.new.reaches result }
    {
        if let Some(answer) = known.get(x) {
            return answer;
        }
        if fuel == 0 {
            return false;
        }
        let row = self.get(x);
        let found = self.any(row.asked.as_slice(), fuel - 1, known);
        known.set(x, found);
        found
    }

    // Whether one of these cells is the touched one or reaches it.
    #[cycle(any_visit)]
    fn any(&self, cells: &[Cell], fuel: usize, known: &mut Known) -> bool
        ensures same { known.new.touched ≡ known.old.touched }
        ensures told { VisitsAny (asked_in (record_in self.now)) (number_of known.old.touched) fuel (map number_of cells.now) known.old.reaches known.new.reaches result }
    {
        for y in cells {
            if *y == known.touched() || self.visit(*y, fuel, known) {
                return true;
            }
        }
        false
    }

    // Puts the cell `x` in doubt if it is not yet and reaches the touched one.
    fn mark_one(&mut self, x: Cell, known: &mut Known)
        ensures same { known.new.touched ≡ known.old.touched }
        ensures turn { Turns known.old.touched (number_of x) (record_in self.old) (record_in self.new) known.old.reaches known.new.reaches }
    {
        let mut row = self.get(x);
        if is_calm(row) && self.visit(x, CELLS + 1, known) {
            row.cause = Some(known.touched());
            self.change(x, row);
        }
    }

    /// After a touch of a cell: every defined cell that is not in doubt and reaches it is in doubt from then on, and
    /// has it as its cause.
    pub fn mark(&mut self, touched: Cell)
        ensures { Grounded (marked_in (record_in self.old)) (cause_in (record_in self.old)) (asked_in (record_in self.old)) → Marks (number_of touched) (record_in self.old) (record_in self.new) }
    {
        let mut known = Known::new(touched);
        for cell in (0..CELLS).filter_map(Cell::new) {
            self.mark_one(cell, &mut known);
        }
    }
}

// The workbook: its making and its four calls, over any kind of value, store, language and rebuilder.
#![tactic(auto)]

ghost use Rattle.std.specs.Prelude.{length, Ok};
ghost use Rattle.interfaces.specs.Cells.{number_of};
ghost use Rattle.interfaces.specs.Refusals.{told};
ghost use Rattle.past.specs.Past.{edit as Edits, define as Defines, clear as Clears, start};
ghost use Rattle.view.specs.View.{Shows};
ghost use Rattle.scheduler.specs.Promise.{Comes};
ghost use Rattle.engine.specs.Promise.{Promise};
ghost use Rattle.engine.specs.Shown.{shown_by};
ghost use Rattle.engine.specs.Given.{given_of, ReadAs};

use interfaces::{Asked, Cell, Language, Printed, Rebuilder, Refusal, Store, Value};
use parts::Parts;
use scheduler::{Answer, Ran, query};
use std::marker::PhantomData;
use table::{Record, Table};

/// A workbook of one kind of value.
// It has no Model: a refused query leaves the parts themselves as they were, and a Model would show no parts.
#[derive(Drop)]
pub struct Workbook<V, S, L, R> {
    pub parts: Parts<S, L, R>,
    kind: PhantomData<V>,
}

impl<V: Value, S: Store<V>, L: Language<V>, R: Rebuilder<V>> Workbook<V, S, L, R> {
    /// Makes a workbook: every cell is an input, with the value that the store has for it.
    pub fn new(store: S, mut language: L, mut rebuilder: R) -> Workbook<V, S, L, R>
        ensures { Shows V.Value.blank (S.Store.locked store) R.Rebuilder.depth (start (λ k. V.Value.canon (S.Store.shows store k))) (shown_by V.Value S.Store L.Language R.Rebuilder result) }
    {
        language.wipe();
        rebuilder.wipe();
        let table = Table::new();
        Workbook {
            parts: Parts {
                store,
                language,
                rebuilder,
                table,
            },
            kind: PhantomData,
        }
    }

    /// Gives an input a value. A value that means the same as before touches nothing.
    pub fn edit(&mut self, cell: Cell, value: V) -> Result<(), Refusal>
        ensures { Promise V.Value S.Store L.Language R.Rebuilder self.old self.new (Edits (number_of cell) (Ok (V.Value.canon value))) (told result) }
    {
        self.give(cell, Ok(value))
    }

    // Gives an input a value, or refuses what is none; that the cell is defined or locked is looked for first.
    fn give(&mut self, cell: Cell, given: Result<V, Refusal>) -> Result<(), Refusal>
        ensures { Promise V.Value S.Store L.Language R.Rebuilder self.old self.new (Edits (number_of cell) (given_of V.Value.canon given)) (told result) }
    {
        let row = self.parts.table.get(cell);
        if row.defined {
            return Err(Refusal::DefinedCell);
        }
        if self.parts.store.is_locked(cell) {
            return Err(Refusal::LockedCell);
        }
        let value = given?;
        let before = self.parts.store.read(cell);
        if value.is_like(&before) {
            return Ok(());
        }
        self.parts.store.write(cell, value)?;
        self.parts.table.mark(cell); // who reached it comes into doubt
        Ok(())
    }

    /// Places a definition: the cell has no traces and no asked cells, and is in doubt by itself.
    pub fn define(&mut self, cell: Cell, text: &[u8]) -> Result<(), Refusal>
        ensures { Promise V.Value S.Store L.Language R.Rebuilder self.old self.new (Defines (number_of cell) text.now) (told result) }
    {
        let mut row = self.parts.table.get(cell);
        if self.parts.store.is_locked(cell) {
            return Err(Refusal::LockedCell); // whatever the text is
        }
        self.parts.language.place(cell, text)?;
        self.parts.rebuilder.forget(cell); // the traces of the definition before
        self.parts.table.mark(cell);
        row.defined = true;
        row.cause = Some(cell);
        row.asked = Asked::new(&[]);
        self.parts.table.change(cell, row);
        Ok(())
    }

    /// Removes a definition: the cell is an input again, with the blank.
    pub fn clear(&mut self, cell: Cell) -> Result<(), Refusal>
        ensures { Promise V.Value S.Store L.Language R.Rebuilder self.old self.new (Clears (number_of cell)) (told result) }
    {
        let row = self.parts.table.get(cell);
        if !row.defined {
            return Err(Refusal::UndefinedCell);
        }
        let blank = V::blank_value();
        self.parts.store.write(cell, blank)?;
        self.parts.language.remove(cell);
        self.parts.rebuilder.forget(cell);
        self.parts.table.mark(cell); // whatever the value was
        self.parts.table.change(cell, Record::blank());
        Ok(())
    }

    /// The value of a cell, or its fault, as working out afresh gives it. The report list has in front the runs that
    /// it took, and the chain list the chain of a fault; the working list is free.
    // The three lists are no struct: a caller would make one for each call and take it apart to read the report.
    pub fn query(
        &mut self,
        cell: Cell,
        report: &mut [Ran],
        chain: &mut [Cell],
        work: &mut [V],
    ) -> Result<Answer<V>, Refusal>
        ensures { Comes V.Value.canon V.Value.blank (S.Store.locked self.old.parts.store) L.Language.stands R.Rebuilder.depth
            (record {
              cell = number_of cell;
              lent = record { report = length report.entry.now; chain = length chain.old; work = length work.old };
              parts_before = self.old.parts;
              parts_after = self.new.parts;
              view_before = shown_by V.Value S.Store L.Language R.Rebuilder self.old;
              view_after = shown_by V.Value S.Store L.Language R.Rebuilder self.new;
              report_before = report.entry.now;
              report_after = report.exit.now;
              chain_before = chain.old;
              chain_after = chain.new;
              work_before = work.old;
              work_after = work.new;
            }) result }
    {
        query(&mut self.parts, cell, report, chain, work)
    }
}

impl<V: Printed, S: Store<V>, L: Language<V>, R: Rebuilder<V>> Workbook<V, S, L, R> {
    /// Gives an input the value that the bytes are written for.
    pub fn edit_written(&mut self, cell: Cell, bytes: &[u8]) -> Result<(), Refusal>
        ensures { ReadAs V.Value.canon V.Printed.written V.Printed.unread bytes.now (λ given. Promise V.Value S.Store L.Language R.Rebuilder self.old self.new (Edits (number_of cell) given) (told result)) }
    {
        self.give(cell, V::read(bytes))
    }
}

// Traces of any depth, over memory that the caller lends. Whatever it held before is of no account.
// Assumes only what its type carries: that the memory is long enough.
ghost use Rattle.std.specs.Prelude.{◌≡◌, ℕ, ◌+◌, ◌*◌, ◌<◌, ◌≤◌, List, [], ◌∷◌, length, take, slice_index_or};
ghost use Rattle.interfaces.specs.Cells.{ask_limit, trace_length, number_of, but};
ghost use Rattle.interfaces.specs.Refusals.{told};
ghost use Rattle.interfaces.specs.Traces.{pairs_of};
ghost use Rattle.rows.specs.Blocks.{checked, Wrote};
ghost use Rattle.rows.specs.Kept.{traces_of, no_row};
ghost use Rattle.rows.specs.Limits.{within};

use interfaces::asked::Asked;
use interfaces::cell::{ASKS, Cell, TRACE};
use interfaces::rebuilder::Rebuilder;
use interfaces::refusal::Refusal;
use interfaces::step::Plan;
use interfaces::value::Value;
use rows::held::{BLOCK, Held};
use rows::pairs::Pairs;
use rows::row::Row;
use rows::table::{clear_row, fresh_rows, push_row, row_of};

/// At most D traces for each cell.
#[derive(Drop)]
pub struct Traces<'a, V, const D: usize> {
    values: &'a mut [V],
    rows: [Row<D>; 256],
    ghost room: { trace_length * D ≤ length values.now },
}

// Writes answers and a result into the block at `base`.
fn keep<V: Value>(values: &mut [V], base: usize, answers: &[V], res: V)
    requires few { length answers.now ≤ ask_limit }
    requires within { base + ask_limit < length values.old }
    ensures { Wrote V.Value.blank base answers.now res values.old values.new }
{
    values[base..base + answers.len()].copy_from_slice(answers);
    values[base + ASKS] = res;
}

impl<'a, V: Value, const D: usize> Traces<'a, V, D> {
    /// Whether memory serves: it has a trace of every cell for each of the depth.
    pub fn check(values: &[V]) -> Result<(), Refusal>
        ensures { told result ≡ checked D (length values.now) }
    {
        // divides, where `check_room` would need a product that may be too large for a usize
        if values.len() / TRACE < D {
            return Err(Refusal::ShortMemory);
        }
        Ok(())
    }

    /// The rebuilder over memory that has passed its check. It remembers nothing, whatever the memory holds.
    pub fn new(values: &'a mut [V]) -> Traces<'a, V, D>
        requires { trace_length * D ≤ length values.old }
        ensures empty { (k : ℕ) → traces_of V.Value.canon V.Value.blank D result.rows result.values.now k ≡ [] }
        ensures holds { result.values.now ≡ values.old }
        ensures lent { result.values.ghost_name ≡ values.entry.ghost_name }
    {
        Traces {
            values,
            rows: fresh_rows(),
        }
    }

    // Puts one trace in front of a cell's; at the full depth the oldest goes.
    fn push(&mut self, cell: Cell, pairs: &Pairs<V>, res: V)
        requires depth { 0 < D }
        requires few { length pairs.now.cells.now ≤ ask_limit }
        ensures { (k : ℕ) → traces_of V.Value.canon V.Value.blank D self.new.rows self.new.values.now k ≡ but (number_of cell) (take D (record { asks = pairs_of V.Value.canon pairs.now.cells.now pairs.now.values.now; result = V.Value.canon res } ∷ traces_of V.Value.canon V.Value.blank D self.old.rows self.old.values.now (number_of cell))) (traces_of V.Value.canon V.Value.blank D self.old.rows self.old.values.now) k }
    {
        let place = push_row(&mut self.rows, cell, Asked::new(pairs.cells()));
        let base = place * TRACE + cell.number() * BLOCK;
        keep(self.values, base, pairs.values(), res);
    }
}

impl<'a, V: Value, const D: usize> Rebuilder<V> for Traces<'a, V, D> {
    const DEPTH: usize = D;

    ghost depth = { D };

    ghost traces = { λ s k. traces_of V.Value.canon V.Value.blank D s.rows s.values.now k };

    ghost bounded = { λ s k. within V.Value.canon V.Value.blank D (slice_index_or s.rows k (no_row D)) s.values.now k };

    fn depth_of() -> usize {
        D
    }

    fn plan(&self, cell: Cell, cells: &[Cell], values: &[V]) -> Plan<V> {
        let Some(pairs) = Pairs::new(cells, values) else {
            return Plan::Run;
        };
        Held::new(row_of(&self.rows, cell), self.values, cell).plan(&pairs)
    }

    fn record(&mut self, cell: Cell, cells: &[Cell], values: &[V], res: V) -> Result<(), Refusal> {
        let pairs = Pairs::new(cells, values).ok_or(Refusal::BadTrace)?;
        if cells.len() > ASKS {
            return Err(Refusal::BadTrace);
        }
        if D > 0 {
            self.push(cell, &pairs, res);
        }
        Ok(())
    }

    fn forget(&mut self, cell: Cell) {
        clear_row(&mut self.rows, cell);
    }

    fn wipe(&mut self) {
        self.rows = fresh_rows();
    }
}

// What kept traces say of the pairs that came so far, and which of two plans goes first.
// Values compare by what they mean. Assumes nothing but the contracts of a kind of value.
ghost use Rattle.std.specs.Prelude.{◌≡◌, ℕ, ◌+◌, ◌*◌, ◌<◌, ◌≤◌, Bool, true, false, List, [], ◌∷◌, length, drop, if◌then◌else◌, slice_index_or};
ghost use Rattle.std.proofs.Math.Option.{none, some};
ghost use Rattle.interfaces.specs.Asks.{asked_cells};
ghost use Rattle.interfaces.specs.Cells.{ask_limit, trace_length, number_of};
ghost use Rattle.interfaces.specs.Traces.{pairs_of, after, plan_means, plan_for, plan as planBy};
ghost use Rattle.rows.specs.Kept.{trace_of, trace_aged, row_traces, preferred};

use crate::held::{BLOCK, Held, Kept};
use crate::pairs::Pairs;
use crate::row::Row;
use interfaces::cell::{ASKS, Cell, TRACE};
use interfaces::step::Plan;
use interfaces::value::Value;

impl<'a, V: Value> Kept<'a, V> {
    // Whether the asks begin with these pairs, of which there are no more than asks.
    fn begins(&self, pairs: &Pairs<V>) -> bool
        requires { length pairs.now.cells.now ≤ length (asked_cells self.now.asked.now) }
        ensures { after V.Value.alike (pairs_of V.Value.canon pairs.now.cells.now pairs.now.values.now) (pairs_of V.Value.canon (asked_cells self.now.asked.now) self.now.block.now) ≡ (if result then some (pairs_of V.Value.canon (drop (length pairs.now.cells.now) (asked_cells self.now.asked.now)) (drop (length pairs.now.cells.now) self.now.block.now)) else none) }
    {
        let asks = self.asked.as_slice().iter().zip(self.block);
        let given = pairs.cells.iter().zip(pairs.values);
        given
            .zip(asks)
            .all(|((c, v), (a, w))| c == a && v.is_like(w))
    }

    // The plan by this trace alone.
    fn plan(&self, pairs: &Pairs<V>) -> Plan<V>
        ensures { plan_means V.Value.canon result ≡ planBy V.Value.alike (trace_of V.Value.canon V.Value.blank (asked_cells self.now.asked.now) self.now.block.now ∷ []) (pairs_of V.Value.canon pairs.now.cells.now pairs.now.values.now) }
    {
        let asked = self.asked.as_slice();
        if pairs.cells.len() > asked.len() || !self.begins(pairs) {
            return Plan::Run;
        }
        match asked.get(pairs.cells.len()) {
            Some(next) => Plan::Next(*next),
            None => Plan::Keep(self.block[ASKS]),
        }
    }
}

/// Of the plan by a trace and that by older ones, the one to follow.
pub fn prefer<V: Value>(newer: Plan<V>, older: Plan<V>) -> Plan<V>
    ensures { plan_means V.Value.canon result ≡ preferred (plan_means V.Value.canon newer) (plan_means V.Value.canon older) }
{
    match (newer, older) {
        (Plan::Run, _) => older,
        (Plan::Next(_), Plan::Keep(_)) => older,
        _ => newer,
    }
}

impl<'a, V: Value, const D: usize> Held<'a, V, D> {
    /// The traces of a cell, by its row and memory that has passed its check.
    pub fn new(row: &'a Row<D>, values: &'a [V], cell: Cell) -> Held<'a, V, D>
        requires { trace_length * D ≤ length values.now }
        ensures row { result.row.now ≡ row.now }
        ensures values { result.values.now ≡ values.now }
        ensures cell { result.cell ≡ cell }
    {
        Held { row, values, cell }
    }

    // The trace that is older than `age` others.
    fn aged(&self, age: usize) -> Kept<V>
        requires { age < self.now.row.now.count }
        ensures { trace_of V.Value.canon V.Value.blank (asked_cells result.asked.now) result.block.now ≡ trace_aged V.Value.canon V.Value.blank D self.now.row.now self.now.values.now (number_of self.now.cell) age }
    {
        let place = self.row.place(age);
        let base = place * TRACE + self.cell.number() * BLOCK;
        Kept {
            asked: self.row.asked(place),
            block: &self.values[base..base + BLOCK],
        }
    }

    /// The plan by all of them.
    pub fn plan(&self, pairs: &Pairs<V>) -> Plan<V>
        ensures { plan_means V.Value.canon result ≡ planBy V.Value.alike (row_traces V.Value.canon V.Value.blank D self.now.row.now self.now.values.now (number_of self.now.cell)) (pairs_of V.Value.canon pairs.now.cells.now pairs.now.values.now) }
    {
        let mut best = Plan::Run;
        for age in 0..self.row.count() {
            best = prefer(best, self.aged(age).plan(pairs));
            // no older trace can do better than one of exactly these pairs
            if let Plan::Keep(_) = best {
                return best;
            }
        }
        best
    }
}

// The rebuilder that remembers nothing of a run: a cell in doubt is run again. It needs no memory.
// It is no `Traces` of depth 0: one of these serves every kind of value at once, and borrows nothing.
ghost use Rattle.std.specs.Prelude.{◌≡◌, ℕ, [], length};
ghost use Rattle.std.proofs.Common.{zero-le};
ghost use Rattle.interfaces.specs.Refusals.{told};
ghost use Rattle.rows.specs.Blocks.{checked};

use interfaces::cell::{ASKS, Cell};
use interfaces::rebuilder::Rebuilder;
use interfaces::refusal::Refusal;
use interfaces::step::Plan;
use interfaces::value::Value;

const NONE: usize = 0;

/// No trace for any cell.
#[derive(Drop)]
pub struct DirtyBits;

impl DirtyBits {
    /// Whether memory serves: any does.
    pub fn check<V: Value>(values: &[V]) -> Result<(), Refusal>
        ensures { told result ≡ checked 0 (length values.now) }
    {
        Ok(())
    }

    /// The rebuilder over memory that has passed its check; it leaves the memory as it is.
    pub fn new<V: Value>(values: &mut [V]) -> DirtyBits
        ensures { values.new ≡ values.old }
    {
        DirtyBits
    }
}

impl<V: Value> Rebuilder<V> for DirtyBits {
    const DEPTH: usize = NONE;

    ghost depth = { 0 };

    ghost traces = { λ _ _. [] };

    ghost bounded = { λ _ _. record { few = zero-le; short = tt } };

    fn depth_of() -> usize {
        NONE
    }

    fn plan(&self, _cell: Cell, _cells: &[Cell], _values: &[V]) -> Plan<V> {
        Plan::Run
    }

    fn record(
        &mut self,
        _cell: Cell,
        cells: &[Cell],
        values: &[V],
        _result: V,
    ) -> Result<(), Refusal> {
        if cells.len() == values.len() && cells.len() <= ASKS {
            return Ok(());
        }
        Err(Refusal::BadTrace)
    }

    fn forget(&mut self, _cell: Cell) {}

    fn wipe(&mut self) {}
}

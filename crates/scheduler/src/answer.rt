// What a query answers; its runs and faults are those of the moves.
pub use moves::answer::{Fault, Layer, Located, Ran};

/// A query's outcome, and how many runs it reports.
#[derive(Clone, Copy)]
pub struct Answer<V> {
    pub outcome: Result<V, Fault>,
    pub runs: usize,
}

// The parts that a workbook is made of. `specs/Shown.antt` says what they show together.
#![tactic(auto)]

use table::Table;

/// A store, a language, a rebuilder, and the record of each cell.
#[derive(Drop)]
pub struct Parts<S, L, R> {
    pub store: S,
    pub language: L,
    pub rebuilder: R,
    pub table: Table,
}

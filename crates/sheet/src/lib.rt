// The formula language over whole numbers: formulas are read and worked out in one pass, and held in lent memory.
#![tactic(auto)]

pub mod language;

pub use language::Sheet;

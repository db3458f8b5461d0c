// The traces of one cell: which cells they asked for, in which order they came, and the plan that they give.
// Their values lie in memory that others hold.
#![tactic(auto)]

pub mod compare;
pub mod held;
pub mod pairs;
pub mod row;
pub mod table;

pub use held::Held;
pub use pairs::Pairs;
pub use row::Row;

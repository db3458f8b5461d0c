// How a formula is worked out while it is read, what can go wrong with it, and the rows of cells that `sum` takes.
#![tactic(auto)]

pub mod block;
pub mod flow;
pub mod wrong;

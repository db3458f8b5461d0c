// The moves of a query: what a cell in doubt does next, what an ask may fault with, and how a doubt ends. Each move is
// defined for whatever it is given.
#![tactic(auto)]

pub mod answer;
pub mod asks;
pub mod ends;
pub mod lists;
pub mod path;
pub mod paths;
pub mod report;
pub mod turns;

pub use answer::{Fault, Layer, Ran};
pub use asks::{AskFault, check_ask, in_doubt, read_stored};
pub use ends::{conclude, end_doubt};
pub use path::Path;
pub use report::Report;
pub use turns::{Turn, next_turn};

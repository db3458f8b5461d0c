// The interfaces that the engine and its parts meet at: cells, refusals, the answers of a language and a
// rebuilder, and the traits of values, stores, languages and rebuilders with their meanings.
#![tactic(auto)]

pub mod asked;
mod asks;
pub mod cell;
pub mod language;
pub mod memory;
pub mod rebuilder;
pub mod refusal;
pub mod step;
pub mod store;
pub mod value;
pub mod written;

pub use asked::Asked;
pub use cell::Cell;
pub use language::Language;
pub use rebuilder::Rebuilder;
pub use refusal::Refusal;
pub use step::{LanguageFault, Plan, Step};
pub use store::Store;
pub use value::{Printed, Value};
pub use written::Written;

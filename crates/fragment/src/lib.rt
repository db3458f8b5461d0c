// The fragment language: parameter lines put together from plain bytes and the texts of cells.
#![tactic(auto)]

mod item;
pub mod language;
mod run;

pub use language::Fragment;

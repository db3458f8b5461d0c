// The languages over lent memory: what a language says of one text (`grammar`), and the language that a grammar and
// the memory of the texts make (`texts`).
#![tactic(auto)]

pub mod grammar;
pub mod texts;

pub use grammar::Grammar;
pub use texts::Texts;

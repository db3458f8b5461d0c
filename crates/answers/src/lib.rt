// Answer lines, written into lent bytes.
#![tactic(auto)]

pub mod answers;
pub mod line;

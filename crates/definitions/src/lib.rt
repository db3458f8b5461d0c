// Memory for the definitions of a language: a text of at most 48 bytes for each cell, in bytes that a caller lends.
#![tactic(auto)]

pub mod memory;

pub use memory::TextMemory;

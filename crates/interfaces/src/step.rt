// What a language and a rebuilder answer.
use crate::cell::Cell;

/// A fault of a language: a number that is not 16 or 17, and a mark.
#[derive(Clone, Copy)]
pub struct LanguageFault {
    pub number: u8,
    pub mark: u16,
}

/// One step of a task.
#[derive(Clone, Copy)]
pub enum Step<V> {
    Ask(Cell),
    Give(V),
    Fault(LanguageFault),
}

/// What to do about a cell that is in doubt.
#[derive(Clone, Copy)]
pub enum Plan<V> {
    Run,
    Keep(V),
    Next(Cell),
}

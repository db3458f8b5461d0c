// The lines of a script, read by their forms.
use interfaces::cell::Cell;

/// The most bytes of a script.
pub const SCRIPT: usize = 60_000;

/// The most bytes of a line, its byte 10 not counted.
pub const LINE: usize = 64;

/// The kind of value and the language that a first line names.
#[derive(Clone, Copy)]
pub enum Kind {
    Sheet,
    Text,
}

/// The depth that a first line names.
#[derive(Clone, Copy)]
pub enum Depth {
    Zero,
    One,
    Four,
}

/// A first line.
#[derive(Clone, Copy)]
pub struct Opening {
    pub kind: Kind,
    pub depth: Depth,
}

/// Any other line.
#[derive(Clone, Copy)]
pub enum Line<'a> {
    Set(Cell, &'a [u8]),
    Get(Cell),
}

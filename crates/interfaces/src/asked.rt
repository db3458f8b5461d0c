// The cells that one run of a task asks for. Other files may cite definitions that name them; this one must not.
ghost use Rattle.std.specs.Prelude.{◌≤◌};
ghost use Rattle.interfaces.specs.Cells.{ask_limit};

use crate::cell::Cell;

/// The cells that a run asked for, in their order, at most as many as one task may ask for.
#[derive(Clone, Copy)]
pub struct Asked {
    pub(crate) cells: [Cell; 8],
    pub(crate) len: usize,
    ghost short: { len ≤ ask_limit },
}

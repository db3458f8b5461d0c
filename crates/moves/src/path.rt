// The cells that are being worked out. Other files may cite definitions that name them; this one must not.
ghost use Rattle.std.specs.Prelude.{◌≤◌};
ghost use Rattle.interfaces.specs.Cells.{cell_count};

use interfaces::Cell;

/// The cells that are being worked out, each asked for by the one before it; at most as many as there are cells.
#[derive(Drop)]
pub struct Path {
    pub(crate) cells: [Cell; 256], // fixed memory, so no Vec; and not one type with the short `Asked`, which is Copy
    pub(crate) len: usize,
    ghost short: { len ≤ cell_count },
}

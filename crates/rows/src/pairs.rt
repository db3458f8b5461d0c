// Cells beside their values, in the order in which a run asked for them. Assumes nothing.
ghost use Rattle.std.specs.Prelude.{◌≡◌, length};
ghost use Rattle.std.specs.Option.{option_map};
ghost use Rattle.rows.specs.Pairings.{paired};

use interfaces::cell::Cell;

/// Cells, and a value for each of them.
#[derive(Drop)]
pub struct Pairs<'a, V> {
    pub(crate) cells: &'a [Cell],
    pub(crate) values: &'a [V],
    ghost even: { length cells.now ≡ length values.now },
}

impl<'a, V> Pairs<'a, V> {
    /// The pairs of two lists, if they are of one length.
    pub fn new(cells: &'a [Cell], values: &'a [V]) -> Option<Pairs<'a, V>>
        ensures { option_map (λ (p : Pairs V). (p.cells.now, p.values.now)) result ≡ paired cells.now values.now }
    {
        if cells.len() != values.len() {
            return None;
        }
        Some(Pairs { cells, values })
    }

    /// The cells.
    pub fn cells(&self) -> &[Cell]
        ensures { result.now ≡ self.now.cells.now }
    {
        self.cells
    }

    /// The values.
    pub fn values(&self) -> &[V]
        ensures { result.now ≡ self.now.values.now }
    {
        self.values
    }
}

// The names of cells, read and written.
#![tactic(auto)]

ghost use Rattle.std.specs.Prelude.{◌≡◌, ℕ, ◌+◌, ◌<◌, ◌≤◌, length, decimal, MatchOption, MatchResult, slice_index};
ghost use Rattle.interfaces.specs.Cells.{cell_count, number_of};
ghost use Rattle.interfaces.specs.Printing.{written_bytes};
ghost use Rattle.names.specs.Names.{ByteAt, byte_stands, column_count, row_count, name_of, OffsetAt, NameAt, NoNameAt, left_at, LeftAt, Named, OneName};

use interfaces::cell::{CELLS, Cell};
use interfaces::written::{WRITTEN, Written};
use itoa::write_digits;

/// Columns A to P.
pub const COLUMNS: usize = 16;

/// Rows 1 to 16.
pub const ROWS: usize = CELLS / COLUMNS;

/// How far behind `first` the byte at a place comes, if it is one from `first` to `last`.
pub fn offset_at(text: &[u8], at: usize, first: u8, last: u8) -> Option<u8>
    ensures { OffsetAt text.now at first last result }
{
    let byte = *text.get(at)?;
    if (first..=last).contains(&byte) {
        Some(byte - first)
    } else {
        None
    }
}

// The column whose letter stands at a place.
fn column_at(text: &[u8], at: usize) -> Option<usize>
    ensures { MatchOption result ((d : ℕ) → d < column_count → ByteAt text.now at (65 + d) → ⊥) (λ d. (d < column_count) × ByteAt text.now at (65 + d)) }
{
    let offset = offset_at(text, at, b'A', b'P')?;
    Some(usize::from(offset))
}

/// Whether a byte stands at a place.
pub fn stands_at(text: &[u8], at: usize, byte: u8) -> bool
    ensures { result ≡ byte_stands text.now at byte }
{
    text.get(at) == Some(&byte)
}

/// The name that stands at a place, the longest one: its cell, and the place that follows.
pub fn name_at(text: &[u8], at: usize) -> Option<(Cell, usize)>
    ensures { MatchOption result (NoNameAt text.now at) (λ p. NameAt text.now at (number_of p.0) p.1) }
{
    let column = column_at(text, at)?;
    let row = usize::from(offset_at(text, at + 1, b'0', b'9')?);
    if row == 0 {
        return None;
    }
    if let Some(low) = offset_at(text, at + 2, b'0', b'9') {
        let long = row * 10 + usize::from(low);
        if long <= ROWS {
            let cell = Cell::new(column * ROWS + (long - 1))?;
            return Some((cell, at + 3));
        }
    }
    let cell = Cell::new(column * ROWS + (row - 1))?;
    Some((cell, at + 2))
}

// Where a text that has no name at the place leaves every name: behind the letter of a column, or at the place.
fn name_end(text: &[u8], at: usize) -> usize
    ensures { result ≡ left_at (slice_index text.now at) at }
{
    match text.get(at) {
        Some(b'A'..=b'P') => at + 1,
        _ => at,
    }
}

/// The name that stands at a place, the longest one, or else where the text leaves every name.
pub fn name_or_end(text: &[u8], at: usize) -> Result<(Cell, usize), usize>
    ensures { MatchResult result (λ p. NameAt text.now at (number_of p.0) p.1) (λ end. LeftAt text.now at end) }
{
    name_at(text, at).ok_or_else(|| name_end(text, at))
}

/// The cell whose name the text is.
pub fn read_name(text: &[u8]) -> Option<Cell>
    ensures { Named text.now result }
{
    let (cell, next) = name_at(text, 0)?;
    if next < text.len() {
        return None;
    }
    Some(cell)
}

/// The name of a cell.
pub fn write_name(cell: Cell) -> Written
    ensures { written_bytes result ≡ name_of (number_of cell) }
{
    let column = b'A' + (cell.number() / ROWS) as u8;
    let row = cell.number() % ROWS + 1;
    let len = name_len(row);
    let mut bytes = [0; WRITTEN];
    bytes[0] = column;
    // in place: a form that is put together elsewhere and moved has to wait for its bytes
    write_digits(row as u64, &mut bytes, len);
    Written { bytes, len }
}

// How many bytes a name in this row has.
fn name_len(row: usize) -> usize
    requires { row ≤ row_count }
    ensures all { 1 + length (decimal row) ≡ result }
    ensures few { result ≤ 3 }
{
    if row < 10 { 2 } else { 3 }
}

/// Cells with one name are one cell.
pub fn one_name() -> u8
    ensures { OneName }
{
    0
}

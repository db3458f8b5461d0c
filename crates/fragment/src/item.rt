// Reads the items of a fragment. Each reader answers what it read and the place that follows, or the length of the
// longest beginning of the text that also begins a fragment.
// A text and a place in it are passed side by side, and an answer is a tuple: so the project has its readers.
ghost use Rattle.std.specs.Prelude.{◌≡◌, ℕ, ◌+◌, ◌<◌, ◌≤◌, length, drop, MatchResult};
ghost use Rattle.interfaces.specs.Cells.{number_of};
ghost use Rattle.fragment_grammar.specs.Grammar.{Sound};
ghost use Rattle.fragment_grammar.specs.Reader.{is_column, is_plain, name_in, named, empty_in, filled_in, tested_in, item_in, rows};
ghost use Rattle.fragment.specs.Readings.{item_means, read_means, placed, row_answer};

use interfaces::cell::Cell;
use names::{name_or_end, stands_at};

/// A part of a fragment.
#[derive(Clone, Copy)]
pub enum Item {
    /// A byte that is itself.
    Plain(u8),
    /// The text of a cell.
    Insert(Cell),
    /// The text of the second cell if that of the first is not empty, else that of the third.
    Choice(Cell, Cell, Cell),
}

// The cell whose name stands at a place. It says in the words of the grammar of fragments what `name_or_end` finds.
fn cell_from(text: &[u8], at: usize) -> Result<(Cell, usize), usize>
    requires { at ≤ length text.now }
    ensures reads { read_means number_of result ≡ placed at (name_in (drop at text.now)) }
    ensures within { MatchResult result (λ p. p.1 ≤ length text.now) (λ _. ⊥ → ⊥) }
{
    name_or_end(text, at)
}

// The last cell of a choice and the brace behind it.
fn empty_from(text: &[u8], at: usize, tested: Cell, filled: Cell) -> Result<(Item, usize), usize>
    requires { at ≤ length text.now }
    ensures { read_means item_means result ≡ placed at (empty_in (number_of tested) (number_of filled) (drop at text.now)) }
{
    let (empty, next) = cell_from(text, at)?;
    if stands_at(text, next, b'}') {
        return Ok((Item::Choice(tested, filled, empty), next + 1));
    }
    Err(next)
}

// The second cell of a choice and what comes behind it.
fn filled_from(text: &[u8], at: usize, tested: Cell) -> Result<(Item, usize), usize>
    requires { at ≤ length text.now }
    ensures { read_means item_means result ≡ placed at (filled_in (number_of tested) (drop at text.now)) }
{
    let (filled, next) = cell_from(text, at)?;
    if stands_at(text, next, b':') {
        return empty_from(text, next + 1, tested, filled);
    }
    Err(next)
}

// What comes behind an opening brace.
fn braces_from(text: &[u8], at: usize) -> Result<(Item, usize), usize>
    requires { at ≤ length text.now }
    ensures { read_means item_means result ≡ placed at (named tested_in (drop at text.now)) }
{
    let (cell, next) = cell_from(text, at)?;
    if stands_at(text, next, b'}') {
        return Ok((Item::Insert(cell), next + 1));
    }
    if stands_at(text, next, b'?') {
        return filled_from(text, next + 1, cell);
    }
    Err(next)
}

fn is_plain(byte: u8) -> bool
    ensures { result ≡ is_plain byte }
{
    matches!(byte, b' '..=b'~') && !matches!(byte, b'{' | b'}')
}

/// The item at a place of the text, and the place that follows.
pub fn item_from(text: &[u8], at: usize) -> Result<(Item, usize), usize>
    requires { at < length text.now }
    ensures { read_means item_means result ≡ placed at (item_in (drop at text.now)) }
{
    let byte = text[at];
    if is_plain(byte) {
        return Ok((Item::Plain(byte), at + 1));
    }
    if byte == b'{' {
        return braces_from(text, at + 1);
    }
    Err(at)
}

// It calls itself for the rest of the text, as the project's readers do.
/// Whether the text is a row of items from a place on.
pub fn row_from(text: &[u8], at: usize) -> Result<(), usize>
    requires { at ≤ length text.now }
    ensures { result ≡ row_answer (rows at 0 (drop at text.now)) }
{
    if at >= text.len() {
        return Ok(());
    }
    let (_, next) = item_from(text, at)?;
    row_from(text, next)
}

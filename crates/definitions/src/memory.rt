// Memory for the definitions of a language: one text of at most 48 bytes for each cell, in bytes that a caller lends.
ghost use Rattle.std.specs.Prelude.{◌≡◌, ℕ, ◌+◌, ◌≤◌, true, [], length, min, nat_le, ◌==◌, position};
ghost use Rattle.std.proofs.Math.Seq.{paste};
ghost use Rattle.interfaces.specs.Cells.{text_limit, number_of, but};
ghost use Rattle.interfaces.specs.Refusals.{told};
ghost use Rattle.definitions.specs.Memory.{up_to_zero, start_of, bytes_at, text_at, checked, SameLoan, can_keep, has_room_lem, can_put, padded, after_put};

use interfaces::cell::{Cell, DEFINITIONS, TEXT};
use interfaces::memory::check_room;
use interfaces::refusal::Refusal;

/// The text of each cell that memory has bytes for. Where memory ends early, the cells past its end have none.
#[derive(Drop)]
pub struct TextMemory<'a> {
    bytes: &'a mut [u8],
}

// Where the first zero byte stands.
fn first_zero(bytes: &[u8]) -> Option<usize>
    ensures { result ≡ position (λ b. b == 0) bytes.now }
{
    bytes.iter().position(|b| *b == 0)
}

// The bytes before the first zero byte.
fn before_zero(bytes: &[u8]) -> &[u8]
    ensures { result.now ≡ up_to_zero bytes.now }
{
    match first_zero(bytes) {
        Some(end) => &bytes[..end],
        None => bytes,
    }
}

// Whether memory can hold a text, so that it reads back as it was.
fn can_hold(text: &[u8]) -> bool
    ensures { result ≡ can_keep text.now }
{
    !text.is_empty() && text.len() <= TEXT && !text.contains(&0)
}

// Where the bytes of a cell begin and end in memory of so many bytes, as far as it has them.
fn span_of(len: usize, cell: Cell) -> (usize, usize)
    ensures start { result.0 ≡ min (start_of (number_of cell)) len }
    ensures end { result.1 ≡ min (start_of (number_of cell + 1)) len }
{
    let start = cell.number() * TEXT;
    (start.min(len), (start + TEXT).min(len))
}

// The bytes of a cell, as far as memory has them.
fn bytes_of(bytes: &[u8], cell: Cell) -> &[u8]
    ensures { result.now ≡ bytes_at bytes.now (number_of cell) }
{
    let (start, end) = span_of(bytes.len(), cell);
    &bytes[start..end]
}

// Whether memory of so many bytes has all those of a cell.
fn has_room(len: usize, cell: Cell) -> bool
    ensures { result ≡ nat_le (start_of (number_of cell + 1)) len }
{
    (cell.number() + 1) * TEXT <= len
}

impl<'a> TextMemory<'a> {
    /// Whether memory serves: it has room for a text of each cell.
    pub fn check(bytes: &[u8]) -> Result<(), Refusal>
        ensures { told result ≡ checked (length bytes.now) }
    {
        check_room(bytes, DEFINITIONS)
    }

    /// The texts in memory, as it holds them.
    pub fn new(bytes: &'a mut [u8]) -> TextMemory<'a>
        ensures holds { result.bytes.now ≡ bytes.old }
        ensures lent { result.bytes.ghost_name ≡ bytes.entry.ghost_name }
    {
        TextMemory { bytes }
    }

    /// The text of a cell; empty where it has none.
    pub fn text(&self, cell: Cell) -> &[u8]
        ensures { result.now ≡ text_at self.now.bytes.now (number_of cell) }
    {
        before_zero(bytes_of(self.bytes, cell))
    }

    // Writes a text and zeros behind it over the bytes of a cell.
    fn write(&mut self, cell: Cell, text: &[u8])
        requires { (has_room_lem self.old.bytes.now (number_of cell) ≡ true) × (length text.now ≤ text_limit) }
        ensures bytes { self.new.bytes.now ≡ paste self.old.bytes.now (start_of (number_of cell)) (padded text.now) text_limit }
        ensures lent { SameLoan self.old.bytes self.new.bytes }
    {
        let start = cell.number() * TEXT;
        let end = start + text.len();
        self.bytes[start..end].copy_from_slice(text);
        self.bytes[end..start + TEXT].fill(0);
    }

    /// Holds a text for a cell. A text that memory cannot hold, because it is empty, too long or has a zero
    /// byte, or because memory ends before, changes nothing; the answer says whether it was held.
    pub fn put(&mut self, cell: Cell, text: &[u8]) -> bool
        ensures answer { result ≡ can_put self.old.bytes.now (number_of cell) text.now }
        ensures texts { (k : ℕ) → text_at self.new.bytes.now k ≡ after_put self.old.bytes.now (number_of cell) text.now k }
        ensures lent { SameLoan self.old.bytes self.new.bytes }
    {
        if !has_room(self.bytes.len(), cell) {
            return false;
        }
        if !can_hold(text) {
            return false;
        }
        self.write(cell, text);
        true
    }

    /// Takes away the text of a cell.
    pub fn remove(&mut self, cell: Cell)
        ensures texts { (k : ℕ) → text_at self.new.bytes.now k ≡ but (number_of cell) [] (text_at self.old.bytes.now) k }
        ensures lent { SameLoan self.old.bytes self.new.bytes }
    {
        let (start, end) = span_of(self.bytes.len(), cell);
        self.bytes[start..end].fill(0);
    }

    /// Takes away every text.
    pub fn wipe(&mut self)
        ensures texts { (k : ℕ) → text_at self.new.bytes.now k ≡ [] }
        ensures lent { SameLoan self.old.bytes self.new.bytes }
    {
        self.bytes.fill(0);
    }
}

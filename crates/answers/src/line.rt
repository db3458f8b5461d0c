// A guard over lent bytes: a line that is not finished leaves zeros in all of them, on every way out.
ghost use Rattle.std.specs.Prelude.{◌≡◌, ℕ, ◌+◌, ◌<◌, ◌≤◌, List, [], ◌∷◌, ◌++◌, length, replicate, MatchResult};
ghost use Rattle.interfaces.specs.Refusals.{said, told, no};
ghost use Rattle.answers.specs.Fronts.{zeros, Wrote, line_answer, line_left};
ghost use Rattle.std.specs.List.{flat_map};

use interfaces::refusal::Refusal;

/// A line that is being written. Lent bytes and how many are written: fixed memory, so there is no Vec.
pub struct AnswerLine<'a> {
    bytes: &'a mut [u8],
    len: usize,
}

impl Drop for AnswerLine<'_> {
    fn drop(self)
        ensures { self.exit.0.now ≡ zeros self.entry.bytes.now }
    {
        let AnswerLine { bytes, len: _ } = self;
        bytes.fill(0);
    }
}

impl<'a> AnswerLine<'a> {
    /// An empty line at the front of the bytes.
    pub fn new(bytes: &'a mut [u8]) -> AnswerLine<'a>
        ensures lent { result.bytes.ghost_name ≡ bytes.entry.ghost_name }
        ensures none { Wrote [] bytes.old result.bytes.now result.len }
    {
        AnswerLine { bytes, len: 0 }
    }

    /// More bytes at the end of the line; 10 and no change where they do not fit.
    pub fn push(&mut self, more: &[u8]) -> Result<(), Refusal>
        ensures lent { self.new.bytes.ghost_name ≡ self.old.bytes.ghost_name }
        ensures put { (ws orig : List ℕ) → Wrote ws orig self.old.bytes.now self.old.len → MatchResult result
            (λ _. Wrote (ws ++ more.now) orig self.new.bytes.now self.new.len)
            (λ e. (said e ≡ no 10) × (length orig < length (ws ++ more.now)) × Wrote ws orig self.new.bytes.now self.new.len) }
    {
        // `get_mut` would tell nothing of the bytes after the write, so the bound has a test of its own
        let start = self.len;
        let end = start.saturating_add(more.len());
        if end > self.bytes.len() {
            return Err(Refusal::AnswerTooLong);
        }
        self.bytes[start..end].copy_from_slice(more);
        self.len = end;
        Ok(())
    }

    /// The line stands: its length, and the bytes as they are.
    pub fn finish(self) -> usize
        ensures { (result ≡ self.entry.len) × (self.exit.0.now ≡ self.entry.bytes.now) }
    {
        let AnswerLine { bytes: _, len } = self;
        len
    }
}

/// Writes the pieces, one after another, as one line over the front of the buffer.
pub fn write_line(buffer: &mut [u8], pieces: &[&[u8]]) -> Result<usize, Refusal>
    ensures answer { told result ≡ line_answer (flat_map (λ x. x.now) pieces.now) buffer.old }
    ensures left { buffer.new ≡ line_left (flat_map (λ x. x.now) pieces.now) buffer.old }
{
    let mut line = AnswerLine::new(buffer);
    for piece in pieces {
        line.push(piece)?;
    }
    Ok(line.finish())
}

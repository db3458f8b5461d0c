// The smallest parts of a formula, read at a place of a text: bytes, words, numbers, names and counts. Each reader
// answers what it read and the place that follows, or the place where the text goes wrong. A place past the end
// of the text has no byte.
#![tactic(auto)]

ghost use Rattle.std.specs.Prelude.{◌≡◌, ℕ, ◌+◌, ◌<◌, ◌≤◌, [], ◌∷◌, length, MatchOption, MatchResult, slice_index};
ghost use Rattle.std.proofs.Math.Option.{none, some};
ghost use Rattle.interfaces.specs.Cells.{number_of};
ghost use Rattle.names.specs.Names.{NameAt};
ghost use Rattle.whole.specs.Whole.{whole_limit};
ghost use Rattle.formula.specs.Bytes.{link_of, digit_of, start_of};
ghost use Rattle.formula.specs.Reader.{want, want_name, due_all};
ghost use Rattle.sheet_parts.specs.Tokens.{spelled, whole_of, number_in, NoName, count_means, count_in, Failed, Met, Missed, Spelled, NumberRead, NameRead, CountRead, NoCount};

use formula::byte::{Link, Start, link_of, start_of};
use interfaces::cell::Cell;
use interfaces::value::Value;
use names::{name_or_end, offset_at, stands_at};
use sheet_work::block::Block;
use whole::{LIMIT, Whole};

const BASE: u64 = 10;

// the digit that no digit follows
const LONE: u8 = 0;

// The byte at a place, and 0 past the end.
fn byte_at(text: &[u8], at: usize) -> u8
    ensures { result ≡ slice_index text.now at }
{
    text.get(at).copied().unwrap_or(0)
}

/// How a factor begins at a place.
pub fn start_at(text: &[u8], at: usize) -> Start
    ensures { result ≡ start_of (slice_index text.now at) }
{
    start_of(byte_at(text, at))
}

/// How the byte at a place joins operands.
pub fn link_at(text: &[u8], at: usize) -> Link
    ensures { result ≡ link_of (slice_index text.now at) }
{
    link_of(byte_at(text, at))
}

// The digit at a place. It says in the words of the grammar of formulas what `offset_at` finds.
fn digit_at(text: &[u8], at: usize) -> Option<u8>
    ensures { MatchOption result (digit_of (slice_index text.now at) ≡ none) (λ d. (digit_of (slice_index text.now at) ≡ some d) × (d < 10)) }
{
    offset_at(text, at, b'0', b'9')
}

/// The place after a byte, if that byte stands there.
pub fn expect(text: &[u8], at: usize, byte: u8) -> Result<usize, usize>
    ensures reads { result ≡ spelled text.now at (byte ∷ []) }
    ensures means { 0 < byte → MatchResult result (λ next. Met text.now at byte next) (λ place. Missed text.now at byte place) }
{
    spell(text, at, &[byte])
}

/// The place after a word, if that word stands there.
pub fn spell(text: &[u8], at: usize, word: &[u8]) -> Result<usize, usize>
    ensures reads { result ≡ spelled text.now at word.now }
    ensures means { at ≤ length text.now → MatchResult result (λ next. Spelled text.now at word.now next) (λ place. Failed (due_all word.now) text.now at place) }
{
    // tried: `try_fold`, `zip` with `position`, and `take_while` with `count`; the check does not find the proof, which
    // would go by what each ensures of the calls of its closure
    for (i, byte) in word.iter().enumerate() {
        if !stands_at(text, at + i, *byte) {
            return Err(at + i);
        }
    }
    Ok(at + word.len())
}

// The record of a number within the limit.
fn whole_of(n: u64) -> Whole
    requires { n ≤ whole_limit }
    ensures { result ≡ whole_of n }
{
    Whole::new(n as i32).unwrap()
}

/// The number at a place.
pub fn number(text: &[u8], at: usize) -> Result<(Whole, usize), usize>
    ensures reads { result ≡ number_in text.now at }
    ensures means { (d : ℕ) → start_of (slice_index text.now at) ≡ Start.Digit d → MatchResult result
        (λ p. (n : ℕ) × (p.0 ≡ whole_of n) × NumberRead text.now at n p.1)
        (λ place. Failed want text.now at place) }
{
    let Some(first) = digit_at(text, at) else {
        return Err(at);
    };
    // the place is no count of rounds: it is what the reader answers, and the loop ends where no digit stands
    let mut next = at + 1;
    if first == LONE {
        return Ok((Whole::blank_value(), next));
    }
    let mut n = u64::from(first);
    while let Some(digit) = digit_at(text, next) {
        n = n * BASE + u64::from(digit);
        if n > u64::from(LIMIT) {
            return Err(next);
        }
        next += 1;
    }
    Ok((whole_of(n), next))
}

// It says in the words of the grammar of formulas what `name_or_end` finds.
/// The name at a place, the longest one.
pub fn name(text: &[u8], at: usize) -> Result<(Cell, usize), usize>
    ensures reads { MatchResult result (λ p. NameAt text.now at (number_of p.0) p.1) (λ place. NoName text.now at place) }
    ensures means { at ≤ length text.now → MatchResult result (λ p. NameRead text.now at (number_of p.0) p.1) (λ place. Failed want_name text.now at place) }
{
    name_or_end(text, at)
}

/// The cells of a sum, by its first one and the count at a place.
pub fn count(text: &[u8], at: usize, first: Cell) -> Result<Block, usize>
    ensures reads { count_means result ≡ count_in text.now at (number_of first) }
    ensures means { MatchResult result
        (λ b. (number_of b.first ≡ number_of first) × CountRead text.now at (number_of first) b.count)
        (λ place. NoCount text.now at (number_of first) place) }
{
    digit_at(text, at)
        .and_then(|digit| Block::new(first, usize::from(digit)))
        .ok_or(at)
}

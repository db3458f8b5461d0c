// The language: `10|F0` is the value of the cell 10, or, where that is 0, the value of the cell F0; where both are 0,
// nobody has set the panel, and that is a fault. A cell is written as its number, in two hexadecimal digits.
ghost use Rattle.std.specs.Prelude.{◌≡◌, ℕ, ◌<◌, ◌≤◌, true, false, map, length, MatchOption, None as Nothing, not, position, slice_index_or};
ghost use Rattle.std.specs.List.{enumerate_from};
ghost use Rattle.interfaces.specs.Cells.{number_of};
ghost use Rattle.interfaces.specs.Tasks.{step_means, step_of};
ghost use Rattle.whole.specs.Whole.{whole_blank, whole_canon};
ghost use Rattle.buyer.specs.Fallback.{is_hex_lem, hex_value_lem, numbered, may_stand_lem, right_from, unset, fallback_stands};
ghost use Rattle.buyer.specs.Held.{verdict_of, held_means};
ghost use Rattle.buyer.specs.FallbackFaults.{fallback_own};
ghost use Rattle.buyer.specs.Places.{FallbackPlaces};

use interfaces::cell::{Cell, TEXT};
use interfaces::language::Language;
use interfaces::refusal::Refusal;
use interfaces::step::{LanguageFault, Step};
use interfaces::value::Value;
use whole::Whole;

/// The fault of a definition both of whose cells are 0. It is this language's one fault, and a fault's `number` is a
/// plain byte in every language, so an enum of one would name it twice.
pub const UNSET: u8 = 40;

// how many bytes a definition has
const LENGTH: usize = 5;

// where its bar stands
const BAR: usize = 2;

// where its second cell stands, the mark of the fault
const SECOND: usize = 3;

// The first cell, or else the second.
#[derive(Clone, Copy)]
struct Fallback {
    first: Cell,
    second: Cell,
}

/// At most one definition for each cell. They are held as they were read, in memory of the language's own.
#[derive(Drop)]
pub struct Fallbacks {
    held: [Option<Fallback>; 256],
}

// The value of a digit.
fn digit(byte: u8) -> Option<u8>
    ensures { MatchOption result (is_hex_lem byte ≡ false) (λ d. (is_hex_lem byte ≡ true) × (d ≡ hex_value_lem byte) × (d < 16)) }
{
    match byte {
        b'0'..=b'9' => Some(byte - b'0'),
        b'A'..=b'F' => Some(byte - b'A' + 10),
        _ => None,
    }
}

// The cell that two digits write.
fn cell_of(high: u8, low: u8) -> Cell
    requires { (is_hex_lem high ≡ true) × (is_hex_lem low ≡ true) }
    ensures { number_of result ≡ numbered high low }
{
    let high = digit(high).unwrap();
    let low = digit(low).unwrap();
    Cell::new(usize::from(high) * 16 + usize::from(low)).unwrap()
}

// Whether a byte may stand at a place of a definition.
fn may_stand(place: usize, byte: u8) -> bool
    ensures { result ≡ may_stand_lem place byte }
{
    if place == BAR {
        byte == b'|'
    } else {
        place < LENGTH && digit(byte).is_some()
    }
}

// The place of the first byte that may not stand there.
fn first_wrong(text: &[u8]) -> Option<usize>
    ensures { result ≡ position (λ q. not (may_stand_lem q.0 q.1)) (enumerate_from 0 text.now) }
{
    text.iter()
        .enumerate()
        .position(|(i, byte)| !may_stand(i, *byte))
}

// How many bytes, from the start on, stand where they may.
fn beginning(text: &[u8]) -> usize
    ensures value { result ≡ right_from 0 text.now }
    ensures bound { result ≤ 5 }
{
    first_wrong(text).unwrap_or(text.len())
}

// Reads a definition, or finds the place where the text leaves the language.
fn read(text: &[u8]) -> Result<Fallback, u8>
    ensures { verdict_of result ≡ fallback_stands text.now }
{
    let right = beginning(text);
    match text {
        [a, b, _, c, d] if right == LENGTH => Ok(Fallback {
            first: cell_of(*a, *b),
            second: cell_of(*c, *d),
        }),
        // an `as` that narrows what the contract of `beginning` bounds; a `try_from` would only be unwrapped
        _ => Err(right as u8),
    }
}

fn is_unset(value: Whole) -> bool
    ensures { result ≡ unset value }
{
    value.is_like(&Whole::blank_value())
}

// The step of a cell with this definition, if it has one.
fn step_of(held: Option<Fallback>, answers: &[Whole]) -> Step<Whole>
    ensures { step_means whole_canon result ≡ step_of whole_blank (held_means held) (map whole_canon answers.now) }
{
    let Some(cells) = held else {
        return Step::Give(Whole::blank_value());
    };
    match answers {
        [] => Step::Ask(cells.first),
        [first, ..] if !is_unset(*first) => Step::Give(*first),
        [_] => Step::Ask(cells.second),
        [_, second, ..] if !is_unset(*second) => Step::Give(*second),
        _ => Step::Fault(LanguageFault {
            number: UNSET,
            mark: SECOND as u16,
        }),
    }
}

impl Fallbacks {
    /// A language without definitions.
    pub fn new() -> Fallbacks
        ensures { (k : ℕ) → slice_index_or result.held k Nothing ≡ Nothing }
    {
        Fallbacks { held: [None; 256] }
    }
}

impl Language<Whole> for Fallbacks {
    ghost means = { λ s k. held_means (slice_index_or s.held k Nothing) };

    ghost stands = { fallback_stands };

    ghost own = { fallback_own };

    fn step(&self, cell: Cell, answers: &[Whole]) -> Step<Whole> {
        step_of(self.held[cell.number()], answers)
    }

    fn place(&mut self, cell: Cell, text: &[u8]) -> Result<(), Refusal> {
        if text.is_empty() || text.len() > TEXT {
            return Err(Refusal::TextLength);
        }
        let fallback = read(text).map_err(Refusal::NotInLanguage)?;
        self.held[cell.number()] = Some(fallback);
        Ok(())
    }

    fn remove(&mut self, cell: Cell) {
        self.held[cell.number()] = None;
    }

    fn wipe(&mut self) {
        self.held = [None; 256];
    }
}

/// Tells in its contract that the places of refused texts are the right ones, in words that name no program.
pub fn places() -> u8
    ensures { FallbackPlaces }
{
    0
}

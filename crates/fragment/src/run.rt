// The steps of a fragment: it is read anew with the answers so far.
ghost use Rattle.std.specs.Prelude.{◌≡◌, ℕ, ◌≤◌, List, map, length};
ghost use Rattle.interfaces.specs.Cells.{text_limit, number_of};
ghost use Rattle.interfaces.specs.Tasks.{faults, step_means, step_of};
ghost use Rattle.text.specs.Text.{text_means, text_canon, text_blank};
ghost use Rattle.definitions.specs.Meant.{meant};
ghost use Rattle.fragment_grammar.specs.Grammar.{Sound, insert, choice};
ghost use Rattle.fragment_grammar.specs.Meaning.{brought};
ghost use Rattle.fragment_grammar.specs.Stands.{fragment_stands};
ghost use Rattle.fragment.specs.Readings.{item_means};
ghost use Rattle.fragment.specs.Steps.{joined_as, Grew, RunsAs};

use crate::item::{Item, item_from, row_from};
use interfaces::cell::{Cell, TEXT};
use interfaces::step::{LanguageFault, Step};
use interfaces::value::Value;
use text::Text;

// A number, since `LanguageFault` has a number; there is no other fault to make a kind of.
/// The fault of a text that grows past 32 bytes.
pub const TOO_LONG: u8 = 14;

/// Why an item ends the run.
#[derive(Clone, Copy)]
pub enum Stop {
    /// It asks for a cell that has no answer yet.
    Asks(Cell),
    /// It takes the text past its limit.
    Overflows,
}

// The text that grew, and how many answers the item used.
fn joined(text: Option<Text>, used: usize) -> Result<(Text, usize), Stop>
    ensures { result ≡ joined_as text used }
{
    Ok((text.ok_or(Stop::Overflows)?, used))
}

fn grown_by_insert(cell: Cell, before: Text, answers: &[Text]) -> Result<(Text, usize), Stop>
    ensures { Grew (brought (insert (number_of cell)) (map text_canon answers.now)) (text_means before) (map text_canon answers.now) result }
{
    let answer = answers.first().ok_or(Stop::Asks(cell))?;
    joined(before.append(*answer), 1)
}

fn grown_by_choice(
    tested: Cell,
    filled: Cell,
    empty: Cell,
    before: Text,
    answers: &[Text],
) -> Result<(Text, usize), Stop>
    ensures { Grew (brought (choice (number_of tested) (number_of filled) (number_of empty)) (map text_canon answers.now)) (text_means before) (map text_canon answers.now) result }
{
    let condition = answers.first().ok_or(Stop::Asks(tested))?;
    let cell = if condition.is_empty() { empty } else { filled };
    let answer = answers.get(1).ok_or(Stop::Asks(cell))?;
    joined(before.append(*answer), 2)
}

// What an item makes of the text before it.
fn grown_by(item: Item, before: Text, answers: &[Text]) -> Result<(Text, usize), Stop>
    requires { Sound (item_means item) }
    ensures { Grew (brought (item_means item) (map text_canon answers.now)) (text_means before) (map text_canon answers.now) result }
{
    match item {
        Item::Plain(byte) => joined(before.push(byte), 0),
        Item::Insert(cell) => grown_by_insert(cell, before, answers),
        Item::Choice(tested, filled, empty) => {
            grown_by_choice(tested, filled, empty, before, answers)
        }
    }
}

// The fault of the item at a place.
fn overflow(at: usize) -> Step<Text>
    requires { at ≤ text_limit }
    ensures { step_means text_canon result ≡ faults 14 at }
{
    Step::Fault(LanguageFault {
        number: TOO_LONG,
        mark: at as u16,
    })
}

// The step of the text from a place on, where its items so far have made the text before.
// It calls itself for the rest of the text, as the project's readers do.
fn run(text: &[u8], at: usize, before: Text, answers: &[Text]) -> Step<Text>
    requires { (at ≤ length text.now) × (length text.now ≤ text_limit) }
    ensures { RunsAs text.now at (text_means before) (map text_canon answers.now) (step_means text_canon result) }
{
    if at >= text.len() {
        return Step::Give(before);
    }
    let Ok((item, next)) = item_from(text, at) else {
        return Step::Give(<Text as Value>::blank_value());
    };
    match grown_by(item, before, answers) {
        Ok((both, used)) => run(text, next, both, &answers[used..]),
        Err(Stop::Asks(cell)) => Step::Ask(cell),
        Err(Stop::Overflows) => overflow(at),
    }
}

/// The step of a text; one that is no fragment is no definition, and gives the blank, as one does that is too long to
/// be a definition.
pub fn step_of(text: &[u8], answers: &[Text]) -> Step<Text>
    ensures { length text.now ≤ text_limit → step_means text_canon result ≡ step_of text_blank (meant fragment_stands text.now) (map text_canon answers.now) }
{
    if text.len() > TEXT {
        return Step::Give(<Text as Value>::blank_value());
    }
    match row_from(text, 0) {
        Ok(()) => run(text, 0, <Text as Value>::blank_value(), answers),
        Err(_) => Step::Give(<Text as Value>::blank_value()),
    }
}

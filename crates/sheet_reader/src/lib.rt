// The reader of formulas, which works them out while it reads. Nothing is assumed of a text. Place and flow go from
// reader to reader, each on its own: a reader answers an item and the next place, and reads the rest again.
#![tactic(auto)]

ghost use Rattle.std.specs.Prelude.{◌≡◌, ℕ, ◌+◌, ◌<◌, ◌≤◌, length, MatchResult, slice_index};
ghost use Rattle.interfaces.specs.Cells.{text_limit};
ghost use Rattle.formula.specs.Bytes.{link_of, start_of};
ghost use Rattle.formula.specs.Reader.{want, inside};
ghost use Rattle.sheet_parts.specs.Tokens.{Failed};
ghost use Rattle.sheet_reader.specs.Readers.{Took, NoProduct, TookPart, FailedPart, factor_after, term_start, term_after, formula_after, WholeRead, WholeFailed};

use formula::byte::{Link, Start};
use interfaces::cell::TEXT;
use sheet_parts::{count, expect, link_at, name, number, spell, start_at};
use sheet_work::flow::{
    Flow, Worked, ask, choose, constant, flow_after, look_up, negate, operate, total,
};
use whole::Whole;

const COMMA: u8 = b',';

const CLOSE: u8 = b')';

// A text to read, with the answers so far. It is short enough to be a definition.
#[derive(Drop)]
struct Source<'a> {
    text: &'a [u8],
    answers: &'a [Whole],
    ghost short: { length text.now ≤ text_limit },
}

impl<'a> Source<'a> {
    // Terms joined by `+` and `-`. It and `term` are two levels of the grammar, which a generic reader would not show.
    #[cycle(choice_factor_formula_lookup_part_term)]
    fn formula(&self, at: usize, from: Flow) -> Result<(Worked, usize), usize>
        requires { at ≤ length self.now.text.now }
        ensures { MatchResult result
            (λ p. Took inside formula_after self.now.text.now at self.now.answers.now from p.0 p.1 × (link_of (slice_index self.now.text.now p.1) ≡ Link.Loose))
            (λ place. Failed inside self.now.text.now at place) }
    {
        let (mut left, mut next) = self.term(at, from)?;
        // the place is no count of rounds: it is what the reader answers, and each part says where the next one begins
        while let Link::Weak(operator) = link_at(self.text, next) {
            let (right, end) = self.term(next + 1, flow_after(left))?;
            left = operate(operator, next as u16, left, right);
            next = end;
        }
        Ok((left, next))
    }

    // Factors joined by `*`, `/` and `%`.
    #[cycle(choice_factor_formula_lookup_part_term)]
    fn term(&self, at: usize, from: Flow) -> Result<(Worked, usize), usize>
        requires { at ≤ length self.now.text.now }
        ensures { MatchResult result
            (λ p. Took term_start term_after self.now.text.now at self.now.answers.now from p.0 p.1 × NoProduct self.now.text.now p.1)
            (λ place. Failed term_start self.now.text.now at place) }
    {
        let (mut product, mut next) = self.factor(at, from)?;
        // as in `formula`, the place is what the reader answers, and no count of rounds
        while let Link::Strong(operator) = link_at(self.text, next) {
            let (right, end) = self.factor(next + 1, flow_after(product))?;
            product = operate(operator, next as u16, product, right);
            next = end;
        }
        Ok((product, next))
    }

    // A number, a name, a minus before a factor, a formula in parentheses, `if`, `at` or `sum`.
    #[cycle(choice_factor_formula_lookup_part_term)]
    fn factor(&self, at: usize, from: Flow) -> Result<(Worked, usize), usize>
        requires { at ≤ length self.now.text.now }
        ensures { MatchResult result
            (λ p. Took want factor_after self.now.text.now at self.now.answers.now from p.0 p.1)
            (λ place. Failed want self.now.text.now at place) }
    {
        match start_at(self.text, at) {
            Start::Negation => {
                let (operand, end) = self.factor(at + 1, from)?;
                Ok((negate(operand), end))
            }
            Start::Group => self.part(at + 1, from, CLOSE),
            Start::Choice => self.choice(at, from),
            Start::Lookup => self.lookup(at, from),
            Start::Total => self.sum(at, from),
            Start::Digit(_) => {
                let (value, end) = number(self.text, at)?;
                Ok((constant(value, from), end))
            }
            Start::Column(_) => {
                let (cell, end) = name(self.text, at)?;
                Ok((ask(cell, self.answers, from), end))
            }
            Start::Other => Err(at),
        }
    }

    // A formula and the byte that ends it.
    #[cycle(choice_factor_formula_lookup_part_term)]
    fn part(&self, at: usize, from: Flow, byte: u8) -> Result<(Worked, usize), usize>
        requires { (at ≤ length self.now.text.now) × (0 < byte) }
        ensures { MatchResult result
            (λ p. TookPart self.now.text.now at self.now.answers.now from byte p.0 p.1)
            (λ place. FailedPart self.now.text.now at byte place) }
    {
        let (got, next) = self.formula(at, from)?;
        let end = expect(self.text, next, byte)?;
        Ok((got, end))
    }

    // `if(f,f,f)`: the first part chooses which of the others counts.
    #[cycle(choice_factor_formula_lookup_part_term)]
    fn choice(&self, at: usize, from: Flow) -> Result<(Worked, usize), usize>
        requires { start_of (slice_index self.now.text.now at) ≡ Start.Choice }
        ensures { MatchResult result
            (λ p. Took want factor_after self.now.text.now at self.now.answers.now from p.0 p.1)
            (λ place. Failed want self.now.text.now at place) }
    {
        let first = spell(self.text, at + 1, b"f(")?;
        let (test, second) = self.part(first, from, COMMA)?;
        let then = flow_after(test);
        let (yes, third) = self.part(second, then, COMMA)?;
        let (no, end) = self.part(third, then, CLOSE)?;
        Ok((choose(test, yes, no), end))
    }

    // `at(f)`: the cell of a number.
    #[cycle(choice_factor_formula_lookup_part_term)]
    fn lookup(&self, at: usize, from: Flow) -> Result<(Worked, usize), usize>
        requires { start_of (slice_index self.now.text.now at) ≡ Start.Lookup }
        ensures { MatchResult result
            (λ p. Took want factor_after self.now.text.now at self.now.answers.now from p.0 p.1)
            (λ place. Failed want self.now.text.now at place) }
    {
        let first = spell(self.text, at + 1, b"t(")?;
        let (place, end) = self.part(first, from, CLOSE)?;
        Ok((look_up(at as u16, place, self.answers), end))
    }

    // `sum(cell,digit)`: the total of so many cells.
    fn sum(&self, at: usize, from: Flow) -> Result<(Worked, usize), usize>
        requires { start_of (slice_index self.now.text.now at) ≡ Start.Total }
        ensures { MatchResult result
            (λ p. Took want factor_after self.now.text.now at self.now.answers.now from p.0 p.1)
            (λ place. Failed want self.now.text.now at place) }
    {
        let inner = spell(self.text, at + 1, b"um(")?;
        let (first, named) = name(self.text, inner)?;
        let counted = spell(self.text, named, b",")?;
        let cells = count(self.text, counted, first)?;
        let end = spell(self.text, counted + 1, b")")?;
        Ok((total(at as u16, cells, self.answers, from), end))
    }
}

/// The formula that the text is, worked out with the answers so far, or the length of the text's longest
/// beginning that also begins a formula. A text that is too long for a definition is none.
pub fn read(text: &[u8], answers: &[Whole]) -> Result<Worked, usize>
    ensures { MatchResult result (λ got. WholeRead text.now answers.now got) (λ place. WholeFailed text.now place) }
{
    if text.len() > TEXT {
        return Err(TEXT);
    }
    let source = Source { text, answers };
    let (got, next) = source.formula(0, Ok(0))?;
    if next < text.len() {
        return Err(next);
    }
    Ok(got)
}

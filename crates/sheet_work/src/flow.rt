// How a formula is worked out while it is read: a value and the number of answers used, or the step that is known.
// What is done at each part is inlined, and hands on what is stopped as it is; what is done once at most in a step, to
// make one or to take one out of a flow, stands apart. A reader that did both copied each flow by bytes: 1.4 to 1.8 times
// the time for formulas with operators.
ghost use Rattle.std.specs.Prelude.{◌≡◌, ℕ, ◌+◌, ◌<◌, ◌≤◌, List, length, drop, ℤ, pos, ◌≤ℤ◌, unsigned_abs};
ghost use Rattle.interfaces.specs.Cells.{cell_count, number_of};
ghost use Rattle.whole.specs.declared.Whole.{Whole};
ghost use Rattle.whole.specs.Whole.{whole_limit, whole_means};
ghost use Rattle.formula.specs.Meaning.{Outcome, value, and_then, quotient, remainder, held, operated, asked, looked_up, totalled};
ghost use Rattle.sheet_work.specs.Wrongs.{wrong_number};
ghost use Rattle.sheet_work.specs.Flows.{flow_after, outcome_of, go_on, negation, operation, chosen};

use crate::block::Block;
use crate::wrong::Wrong;
use formula::byte::Operator;
use interfaces::cell::Cell;
use interfaces::step::{LanguageFault, Step};
use interfaces::value::Value;
use whole::Whole;

/// A value, and how many answers are used when it is known.
#[derive(Clone, Copy)]
pub struct Valued {
    pub value: Whole,
    pub used: usize,
}

/// How far the work has come: so many answers are used, or the step is known.
pub type Flow = Result<usize, Step<Whole>>;

/// What a part of a formula comes to: a value, or the step that is known.
pub type Worked = Result<Valued, Step<Whole>>;

// The step that faults so.
#[inline(never)]
fn fault(wrong: Wrong, mark: u16) -> Step<Whole>
    ensures { result ≡ Step.Fault (record { number = wrong_number wrong; mark = mark }) }
{
    Step::Fault(LanguageFault {
        number: wrong.number(),
        mark,
    })
}

// The step that asks for a cell.
#[inline(never)]
fn wanted(cell: Cell) -> Step<Whole>
    ensures { result ≡ Step.Ask cell }
{
    Step::Ask(cell)
}

// A flow as work, and below work as a flow, for what is stopped: there the step goes from the one to the other.
#[inline(never)]
fn as_work(from: Flow) -> Worked
    ensures { (answers : List Whole) → outcome_of answers result ≡ go_on answers from (value (pos 0)) }
{
    from.map(|used| Valued {
        value: Whole::blank_value(),
        used,
    })
}

#[inline(never)]
fn as_flow(part: Worked) -> Flow
    ensures { result ≡ flow_after part }
{
    part.map(|got| got.used)
}

// A result, held to the limits.
#[inline(always)]
fn hold(res: i64, mark: u16, used: usize) -> Worked
    ensures { (answers : List Whole) → outcome_of answers result ≡ held mark res (drop used answers) }
{
    match i32::try_from(res).ok().and_then(Whole::new) {
        Some(value) => Ok(Valued { value, used }),
        None => Err(fault(Wrong::BeyondLimits, mark)),
    }
}

/// A number of the formula.
#[inline(always)]
pub fn constant(n: Whole, from: Flow) -> Worked
    ensures { (answers : List Whole) → outcome_of answers result ≡ go_on answers from (value (whole_means n)) }
{
    match from {
        Ok(used) => Ok(Valued { value: n, used }),
        Err(_) => as_work(from),
    }
}

/// Where the work goes on behind a part.
#[inline(always)]
pub fn flow_after(part: Worked) -> Flow
    ensures { result ≡ flow_after part }
{
    match part {
        Ok(got) => Ok(got.used),
        Err(_) => as_flow(part),
    }
}

/// The value of a cell, which is the next answer.
#[inline(always)]
pub fn ask(cell: Cell, answers: &[Whole], from: Flow) -> Worked
    ensures { outcome_of answers.now result ≡ go_on answers.now from (asked (number_of cell)) }
{
    let Ok(used) = from else {
        return as_work(from);
    };
    match answers.get(used) {
        Some(value) => Ok(Valued {
            value: *value,
            used: used + 1,
        }),
        None => Err(wanted(cell)),
    }
}

/// The number below 0 for one above it, and the other way round.
#[inline(always)]
pub fn negate(operand: Worked) -> Worked
    ensures { (answers : List Whole) → outcome_of answers result ≡ and_then (outcome_of answers operand) negation }
{
    let Ok(Valued { value, used }) = operand else {
        return operand;
    };
    let value = Whole::new(-value.value()).unwrap();
    Ok(Valued { value, used })
}

// The quotient, rounded toward zero. It stands apart, and so does the remainder: with them inside `apply` the check
// doesn't find the proof of `apply`.
fn quotient_of(x: i64, y: i64) -> i64
    requires { (unsigned_abs x ≤ whole_limit) × (0 < unsigned_abs y) }
    ensures { result ≡ quotient x y }
{
    x / y
}

// The remainder, with the dividend's sign.
fn remainder_of(x: i64, y: i64) -> i64
    requires { (unsigned_abs x ≤ whole_limit) × (0 < unsigned_abs y) }
    ensures { result ≡ remainder x y }
{
    x % y
}

// An operator at its operands.
#[inline(always)]
fn apply(operator: Operator, mark: u16, x: i64, y: i64, used: usize) -> Worked
    requires { (unsigned_abs x ≤ whole_limit) × (unsigned_abs y ≤ whole_limit) }
    ensures { (answers : List Whole) → outcome_of answers result ≡ operated operator mark x y (drop used answers) }
{
    match operator {
        Operator::Plus => hold(x + y, mark, used),
        Operator::Minus => hold(x - y, mark, used),
        Operator::Times => hold(x * y, mark, used),
        Operator::Over | Operator::Modulo if y == 0 => Err(fault(Wrong::DivisorZero, mark)),
        Operator::Over => hold(quotient_of(x, y), mark, used),
        Operator::Modulo => hold(remainder_of(x, y), mark, used),
    }
}

/// An operator between two parts, of which the right one was worked out after the left one.
#[inline(always)]
pub fn operate(operator: Operator, mark: u16, left: Worked, right: Worked) -> Worked
    ensures { (answers : List Whole) → outcome_of answers result ≡ operation operator mark (outcome_of answers left) (outcome_of answers right) }
{
    let Ok(Valued { value, used: _ }) = left else {
        return left;
    };
    let x = i64::from(value.value());
    let Ok(Valued { value, used }) = right else {
        return right;
    };
    apply(operator, mark, x, i64::from(value.value()), used)
}

/// The part that another part chooses: the last one where that is 0.
pub fn choose(test: Worked, yes: Worked, no: Worked) -> Worked
    ensures { (answers : List Whole) → outcome_of answers result ≡ chosen (outcome_of answers test) (outcome_of answers yes) (outcome_of answers no) }
{
    match test {
        Ok(got) if got.value.value() != 0 => yes,
        Ok(_) => no,
        Err(_) => test,
    }
}

/// The value of the cell of a number.
pub fn look_up(mark: u16, place: Worked, answers: &[Whole]) -> Worked
    ensures { outcome_of answers.now result ≡ and_then (outcome_of answers.now place) (looked_up mark) }
{
    let Ok(Valued { value, used }) = place else {
        return place;
    };
    match usize::try_from(value.value()).ok().and_then(Cell::new) {
        Some(cell) => ask(cell, answers, Ok(used)),
        None => Err(fault(Wrong::NoSuchCell, mark)),
    }
}

// The answers that are not used yet.
fn rest_of(answers: &[Whole], used: usize) -> &[Whole]
    ensures { result.now ≡ drop used answers.now }
{
    answers.get(used..).unwrap_or(&[])
}

// The cells of a block, added up with the answers from `used` on.
fn add_up(mark: u16, cells: Block, answers: &[Whole], used: usize) -> Worked
    ensures { outcome_of answers.now result ≡ totalled mark (number_of cells.first) cells.count (pos 0) (drop used answers.now) }
{
    let rest = rest_of(answers, used);
    if rest.len() < cells.count {
        return Err(Step::Ask(cells.cell(rest.len())));
    }
    // tried: `map` and `sum`, which asks first that no partial sum is too large; the check does not find that
    let mut sum: i64 = 0;
    for answer in &rest[..cells.count] {
        sum += i64::from(answer.value());
    }
    hold(sum, mark, used + cells.count)
}

/// The total of some cells.
pub fn total(mark: u16, cells: Block, answers: &[Whole], from: Flow) -> Worked
    ensures { outcome_of answers.now result ≡ go_on answers.now from (totalled mark (number_of cells.first) cells.count (pos 0)) }
{
    add_up(mark, cells, answers, from?)
}

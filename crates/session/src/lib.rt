// Runs a script: its lines are answered one after another.
#![tactic(auto)]

ghost use Rattle.std.specs.Prelude.{◌≡◌, ℕ, ◌<◌, ◌≤◌, false, List, [], ◌∷◌, ◌++◌, length, replicate, IfOk, MatchResult, OnOk};
ghost use Rattle.interfaces.specs.Cells.{cell_count, number_of};
ghost use Rattle.interfaces.specs.Refusals.{said, told};
ghost use Rattle.answers.specs.Answers.{ok_line, refusal_line};
ghost use Rattle.answers.specs.Fronts.{line_answer, line_left};
ghost use Rattle.script.specs.Lines.{Cut, ReadAs, asked};
ghost use Rattle.session.specs.Session.{answer_limit, line_of_answer, Edited, Wrote, Session, SessionOf, Transcript, OneTranscript};

use answers::answers::{write_ok, write_refusal, write_value};
use interfaces::cell::{CELLS, Cell};
use interfaces::refusal::Refusal;
use interfaces::store::Store;
use interfaces::value::{Printed, Value};
use memchr::memchr;
use script::lines::{Kind, Line, SCRIPT};
use script::reading::{read_line, read_opening};
use std::alloc::{AllocError, Global};
use stores::TableStore;
use text::Text;
use whole::Whole;

const BREAK: u8 = 10;

/// The bytes of the buffer that each answer line is written in.
pub const ANSWER: usize = 1_100;

// The first line, and what follows it.
fn cut_line(bytes: &[u8]) -> (&[u8], &[u8])
    requires { 0 < length bytes.now }
    ensures cut { Cut bytes.now result.0.now result.1.now }
    ensures less { length result.1.now < length bytes.now }
{
    match memchr(BREAK, bytes) {
        Some(place) => (&bytes[..place], &bytes[place + 1..]),
        None => (bytes, &[]),
    }
}

/// Gives a cell the value that is written so: 3 for a locked cell, then the refusal of bytes that are no value.
pub fn edit_written<P: Printed, S: Store<P>>(
    store: &mut S,
    cell: Cell,
    bytes: &[u8],
) -> Result<(), Refusal>
    ensures edited { Edited P.Printed.written P.Printed.unread (S.Store.locked store.old) (λ k. P.Value.canon (S.Store.shows store.old k)) (number_of cell) bytes.now (told result) (λ k. P.Value.canon (S.Store.shows store.new k)) }
    ensures locks { (k : ℕ) → S.Store.locked store.new k ≡ S.Store.locked store.old k }
{
    if store.is_locked(cell) {
        return Err(Refusal::LockedCell);
    }
    let value = P::read(bytes)?;
    store.write(cell, value)
}

// Writes `ok`, or why not, over the front of the buffer.
fn write_outcome(buffer: &mut [u8], outcome: Result<(), Refusal>) -> Result<usize, Refusal>
    ensures answer { told result ≡ line_answer (line_of_answer (told outcome)) buffer.old }
    ensures left { buffer.new ≡ line_left (line_of_answer (told outcome)) buffer.old }
    ensures short { length (line_of_answer (told outcome)) ≤ 39 }
{
    // both arms lend the buffer, which the two closures of a `map_or_else` cannot hold at once
    match outcome {
        Ok(()) => write_ok(buffer),
        Err(refusal) => write_refusal(buffer, refusal),
    }
}

// Answers a line that was read, in the front of the buffer.
fn serve<P: Printed, S: Store<P>>(
    store: &mut S,
    found: Line<'_>,
    buffer: &mut [u8],
) -> Result<usize, Refusal>
    ensures answered { (line : List ℕ) → ReadAs line (asked found.entry) → Wrote P.Printed.written P.Printed.unread (S.Store.locked store.old) (λ k. P.Value.canon (S.Store.shows store.old k)) line buffer.old (told result) buffer.new (λ k. P.Value.canon (S.Store.shows store.new k)) }
    ensures locks { (k : ℕ) → S.Store.locked store.new k ≡ S.Store.locked store.old k }
{
    match found {
        Line::Get(cell) => write_value(buffer, cell, &store.read(cell)),
        Line::Set(cell, value) => write_outcome(buffer, edit_written(store, cell, value)),
    }
}

// Answers one line, in the front of the buffer.
fn answer_line<P: Printed, S: Store<P>>(
    store: &mut S,
    line: &[u8],
    buffer: &mut [u8],
) -> Result<usize, Refusal>
    ensures answered { Wrote P.Printed.written P.Printed.unread (S.Store.locked store.old) (λ k. P.Value.canon (S.Store.shows store.old k)) line.now buffer.old (told result) buffer.new (λ k. P.Value.canon (S.Store.shows store.new k)) }
    ensures locks { (k : ℕ) → S.Store.locked store.new k ≡ S.Store.locked store.old k }
{
    // as in `write_outcome`, both arms lend the buffer
    match read_line(line) {
        Ok(found) => serve(store, found, buffer),
        Err(refusal) => write_refusal(buffer, refusal),
    }
}

// Answers the lines one after another, at the end of what is printed.
fn answer_lines<P: Printed, S: Store<P>>(
    store: &mut S,
    lines: &[u8],
    out: &mut Vec<u8>,
) -> Result<(), AllocError>
    ensures { OnOk result ((printed : List ℕ) × (out.new.items ≡ out.old.items ++ printed) × Session P.Printed.written P.Printed.unread (S.Store.locked store.old) (λ k. P.Value.canon (S.Store.shows store.old k)) lines.now printed) }
{
    let mut buffer = [0; ANSWER];
    let mut rest = lines;
    // `open` cuts the first line by `cut_line` too; `split_inclusive` would leave the break in each line
    while !rest.is_empty() {
        let (line, next) = cut_line(rest);
        let len = answer_line(store, line, &mut buffer).unwrap();
        out.extend_from_slice(&buffer[..len])?;
        rest = next;
    }
    Ok(())
}

// A blank for each cell. A loop: `vec!` clones one blank, and no law says that a clone of a `P` is equal to it.
fn blanks<P: Printed>(heap: Global) -> Result<Vec<P>, AllocError>
    ensures { IfOk result (λ v. v.items ≡ replicate cell_count P.Value.blank) }
{
    let mut values = Vec::new(heap);
    for _ in 0..CELLS {
        values.push(P::blank_value())?;
    }
    Ok(values)
}

// Answers the lines over a table of blanks of one kind.
fn answer_over_blanks<P: Printed>(
    heap: Global,
    lines: &[u8],
    out: &mut Vec<u8>,
) -> Result<(), AllocError>
    ensures { OnOk result ((printed : List ℕ) × (out.new.items ≡ out.old.items ++ printed) × Session P.Printed.written P.Printed.unread (λ _. false) (λ _. P.Value.blank) lines.now printed) }
{
    let mut values = blanks::<P>(heap)?;
    let mut store = TableStore::new(values.as_mut_slice());
    answer_lines(&mut store, lines, out)
}

// Prints `ok`, or why not.
fn print_outcome(out: &mut Vec<u8>, outcome: Result<(), Refusal>) -> Result<(), AllocError>
    ensures { OnOk result (out.new.items ≡ out.old.items ++ line_of_answer (told outcome)) }
{
    let mut buffer = [0; ANSWER];
    let len = write_outcome(&mut buffer, outcome).unwrap();
    out.extend_from_slice(&buffer[..len])
}

// Answers the lines behind a first line that names the kind.
fn answer_as(kind: Kind, heap: Global, lines: &[u8], out: &mut Vec<u8>) -> Result<(), AllocError>
    ensures { OnOk result ((printed : List ℕ) × (out.new.items ≡ out.old.items ++ printed) × SessionOf kind lines.now printed) }
{
    match kind {
        Kind::Sheet => answer_over_blanks::<Whole>(heap, lines, out),
        Kind::Text => answer_over_blanks::<Text>(heap, lines, out),
    }
}

// The kind that the first line of a script names, and the lines that follow it.
fn open(input: &[u8]) -> Result<(Kind, &[u8]), Refusal>
    ensures { MatchResult result (λ o. (out : List ℕ) → SessionOf o.0 o.1.now out → Transcript input.now (ok_line ++ out)) (λ e. Transcript input.now (refusal_line (said e))) }
{
    if input.len() > SCRIPT {
        return Err(Refusal::ScriptTooLong);
    }
    if input.is_empty() {
        return Err(Refusal::BadFirstLine);
    }
    let (first, rest) = cut_line(input);
    let opening = read_opening(first)?;
    Ok((opening.kind, rest))
}

/// What a whole script prints.
pub fn run(heap: Global, input: &[u8]) -> Result<Vec<u8>, AllocError>
    ensures { IfOk result (λ out. Transcript input.now out.items) }
{
    let mut out = Vec::new(heap);
    match open(input) {
        Ok((kind, lines)) => {
            print_outcome(&mut out, Ok(()))?;
            answer_as(kind, heap, lines, &mut out)?;
        }
        Err(refusal) => print_outcome(&mut out, Err(refusal))?,
    }
    Ok(out)
}

/// A script prints one thing only.
pub fn one_transcript() -> u8
    ensures { OneTranscript }
{
    0
}

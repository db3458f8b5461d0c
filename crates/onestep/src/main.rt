// One step of a definition. The first line of the input is `sheet` or `text`; each further line has a definition and,
// behind a byte 9 each, the answers so far. What it prints is `ask CELL`, `value V`, `fault N MARK`, `no 5` or
// `no 6 PLACE`, and `no 7` or `no 8` for an answer that is no value. The input is read from the files that are named
// as arguments, one after another, or else from standard input.
#![tactic(auto)]

use fragment::Fragment;
use interfaces::cell::{Cell, DEFINITIONS};
use interfaces::language::Language;
use interfaces::refusal::Refusal;
use interfaces::step::{LanguageFault, Step};
use interfaces::value::Printed;
use itoa::{Buffer, Integer};
use names::write_name;
use sheet::Sheet;
use std::alloc::{AllocError, AllocFailed, Global};
use std::io::{Read, Write};
use std::{env, fs, io};
use text::Text;
use whole::Whole;

const BREAK: u8 = b'\n';

const TAB: u8 = b'\t';

// Why a line has no step: it is refused, or memory ran out.
enum NoStep {
    Refused(Refusal),
    Memory(AllocError),
}

impl From<Refusal> for NoStep {
    fn from(refusal: Refusal) -> NoStep {
        NoStep::Refused(refusal)
    }
}

impl<T: Drop> From<AllocFailed<T>> for NoStep {
    fn from(failed: AllocFailed<T>) -> NoStep {
        NoStep::Memory(failed.into())
    }
}

// Appends a number by its digits alone: through `write!` each piece of a line costs more than its bytes.
fn print_number<I: Integer>(out: &mut Vec<u8>, number: I) -> Result<(), AllocError> {
    out.extend_from_slice(Buffer::new().format(number).as_bytes())
}

fn print_refusal(out: &mut Vec<u8>, refusal: Refusal) -> Result<(), AllocError> {
    out.extend_from_slice(b"no ")?;
    print_number(out, refusal.number())?;
    if let Some(place) = refusal.place() {
        out.extend_from_slice(b" ")?;
        print_number(out, place)?;
    }
    Ok(())
}

// Written names and values are bytes and no `str`, so no `{}` prints them.
fn print_step<V: Printed>(out: &mut Vec<u8>, step: Step<V>) -> Result<(), AllocError> {
    match step {
        Step::Ask(cell) => {
            out.extend_from_slice(b"ask ")?;
            out.extend_from_slice(write_name(cell).as_slice())
        }
        Step::Give(value) => {
            out.extend_from_slice(b"value ")?;
            out.extend_from_slice(value.write().as_slice())
        }
        Step::Fault(LanguageFault { number, mark }) => {
            out.extend_from_slice(b"fault ")?;
            print_number(out, number)?;
            out.extend_from_slice(b" ")?;
            print_number(out, mark)
        }
    }
}

// Places the definition of a line at a cell, and takes one step with the answers behind it.
fn step_of<V: Printed, L: Language<V>>(
    heap: Global,
    language: &mut L,
    cell: Cell,
    line: &[u8],
) -> Result<Step<V>, NoStep> {
    let mut fields = line.split(|byte| *byte == TAB);
    language.place(cell, fields.next().unwrap_or(&[]))?;
    let mut answers = Vec::new(heap);
    for field in fields {
        answers.push(V::read(field)?)?;
    }
    Ok(language.step(cell, answers.as_slice()))
}

fn answer_all<V: Printed, L: Language<V>>(
    heap: Global,
    language: &mut L,
    lines: &[u8],
    out: &mut Vec<u8>,
) -> io::Result<()> {
    for line in lines.split_inclusive(|byte| *byte == BREAK) {
        let line = line.strip_suffix(b"\n").unwrap_or(line);
        match step_of(heap, language, Cell::FIRST, line) {
            Ok(step) => print_step(out, step)?,
            Err(NoStep::Refused(refusal)) => print_refusal(out, refusal)?,
            Err(NoStep::Memory(error)) => return Err(error.into()),
        }
        out.extend_from_slice(b"\n")?;
    }
    Ok(())
}

// Answers the lines of an input in the language that its first line names.
fn answer_input(heap: Global, input: &[u8], out: &mut Vec<u8>) -> io::Result<()> {
    let mut memory = vec![in heap; 0u8; DEFINITIONS]?;
    if let Some(lines) = input.strip_prefix(b"sheet\n") {
        let mut language = Sheet::new(memory.as_mut_slice());
        return answer_all::<Whole, Sheet>(heap, &mut language, lines, out);
    }
    if let Some(lines) = input.strip_prefix(b"text\n") {
        let mut language = Fragment::new(memory.as_mut_slice());
        return answer_all::<Text, Fragment>(heap, &mut language, lines, out);
    }
    Ok(())
}

fn main(rt: HostRuntime) -> io::Result<()> {
    let mut out = Vec::new(rt.alloc());
    let args = env::args(&rt)?;
    if args.len() < 2 {
        let mut input = Vec::new(rt.alloc());
        rt.stdin().read_to_end(&mut input)?;
        answer_input(rt.alloc(), input.as_slice(), &mut out)?;
    }
    for name in args.skip(1) {
        let input = fs::read(&rt, name.as_str())?;
        answer_input(rt.alloc(), input.as_slice(), &mut out)?;
    }
    rt.stdout().write_all(out.as_slice())
}

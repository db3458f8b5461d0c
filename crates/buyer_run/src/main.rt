// A panel's calibration by a store and a language of a buyer's own, run under the engine: every call is printed with
// what came of it, and a query with its runs and their causes. Cells are printed by number, in hexadecimal digits.
#![tactic(auto)]

ghost use Rattle.std.specs.Prelude.{◌≤◌, length};

use buyer::{Fallbacks, PanelStore};
use engine::Workbook;
use interfaces::cell::{CELLS, Cell, TRACE, WORK};
use interfaces::language::Language;
use interfaces::rebuilder::Rebuilder;
use interfaces::refusal::Refusal;
use interfaces::store::Store;
use interfaces::value::Value;
use rebuilders::VerifyingTraces;
use scheduler::{Fault, Ran};
use std::io;
use whole::Whole;

// the cells from here on were set at the factory: the dark level, the gain and the threshold of the panel
const FACTORY: usize = 0xF0;

// one value fewer than the store needs
const SHORT: usize = 255;

// The workbook and the lists that a query is lent.
#[derive(Drop)]
struct Desk<S, L, R> {
    workbook: Workbook<Whole, S, L, R>,
    report: [Ran; 256],
    chain: [Cell; 256],
    work: [Whole; 2048],
}

fn cell(number: u8) -> Cell {
    Cell::new(usize::from(number)).unwrap()
}

fn whole(number: i16) -> Whole {
    Whole::new(i32::from(number)).unwrap()
}

// `ok`, or the number of the refusal, and its place in the text if it has one. A function, as those below: refusals,
// faults and runs are types of other crates, and a Display needs a wrapper of its own for each, which is no plainer.
fn print_done(rt: &HostRuntime, done: Result<(), Refusal>) -> io::Result<()> {
    let Err(refusal) = done else {
        return println!(rt; "ok");
    };
    let number = refusal.number();
    match refusal.place() {
        Some(place) => println!(rt; "no {number} {place}"),
        None => println!(rt; "no {number}"),
    }
}

fn print_fault(rt: &HostRuntime, fault: &Fault, chain: &[Cell]) -> io::Result<()> {
    let number = fault.number;
    let at = fault.cell.number();
    let mark = fault.mark;
    print!(rt; "fault {number} at {at:02X} {mark} :")?;
    for link in chain {
        let name = link.number();
        print!(rt; " {name:02X}")?;
    }
    println!(rt; "")
}

fn print_runs(rt: &HostRuntime, runs: &[Ran]) -> io::Result<()> {
    for run in runs {
        let name = run.cell.number();
        let cause = run.cause.number();
        println!(rt; "  ran {name:02X} for {cause:02X}")?;
    }
    Ok(())
}

impl<S: Store<Whole>, L: Language<Whole>, R: Rebuilder<Whole>> Desk<S, L, R> {
    fn edit(&mut self, rt: &HostRuntime, name: u8, number: i16) -> io::Result<()> {
        print!(rt; "edit {name:02X} {number}: ")?;
        print_done(rt, self.workbook.edit(cell(name), whole(number)))
    }

    fn define(&mut self, rt: &HostRuntime, name: u8, text: &str) -> io::Result<()> {
        print!(rt; "define {name:02X} {text}: ")?;
        print_done(rt, self.workbook.define(cell(name), text.as_bytes()))
    }

    fn clear(&mut self, rt: &HostRuntime, name: u8) -> io::Result<()> {
        print!(rt; "clear {name:02X}: ")?;
        print_done(rt, self.workbook.clear(cell(name)))
    }

    fn query(&mut self, rt: &HostRuntime, name: u8) -> io::Result<()> {
        print!(rt; "query {name:02X}: ")?;
        let asked = self.workbook.query(
            cell(name),
            &mut self.report,
            &mut self.chain,
            &mut self.work,
        );
        let answer = match asked {
            Ok(answer) => answer,
            Err(refusal) => return print_done(rt, Err(refusal)),
        };
        match answer.outcome {
            Ok(value) => {
                let number = value.value();
                println!(rt; "{number}")?;
            }
            Err(fault) => {
                let len = fault.chain.min(CELLS);
                print_fault(rt, &fault, &self.chain[0..len])?;
            }
        }
        let runs = answer.runs.min(CELLS);
        print_runs(rt, &self.report[0..runs])
    }

    // Levels that fall back on the factory's until the panel is calibrated.
    fn calibrate(&mut self, rt: &HostRuntime) -> io::Result<()> {
        self.define(rt, 0x20, "10|F0")?; // the dark level in use
        self.define(rt, 0x21, "20|F1")?; // the gain, where no dark level is known
        self.query(rt, 0x21)?;
        self.query(rt, 0x21)?; // nothing to do
        self.edit(rt, 0x10, 96)?; // the factory's own dark level is measured
        self.query(rt, 0x21)?; // 20 runs and stays 96, so 21 is kept
        self.edit(rt, 0x10, 101)?;
        self.query(rt, 0x21)
    }

    // Calls that are refused: nothing has changed after them.
    fn mistake(&mut self, rt: &HostRuntime) -> io::Result<()> {
        self.edit(rt, 0xF0, 7)?;
        self.define(rt, 0xF1, "10|20")?;
        self.edit(rt, 0x20, 7)?;
        self.define(rt, 0x22, "10|f0")?;
        self.define(rt, 0x22, "10|F")?;
        self.define(rt, 0x22, "")?;
        self.clear(rt, 0x22)?;
        self.query(rt, 0x21)
    }

    // Definitions without a value, and how one of them gets it.
    fn fault(&mut self, rt: &HostRuntime) -> io::Result<()> {
        self.define(rt, 0x30, "31|F2")?;
        self.define(rt, 0x31, "30|F2")?;
        self.query(rt, 0x30)?; // a circle
        self.clear(rt, 0x31)?;
        self.query(rt, 0x30)?;
        self.define(rt, 0x32, "33|34")?;
        self.query(rt, 0x32) // neither cell is set
    }
}

// Puts the parts to work. It names none of them: whatever keeps the meanings of the traits may come in.
fn work<S: Store<Whole> + Drop, L: Language<Whole> + Drop, R: Rebuilder<Whole> + Drop>(
    rt: &HostRuntime,
    store: S,
    language: L,
    rebuilder: R,
) -> io::Result<()> {
    let mut desk = Desk {
        workbook: Workbook::new(store, language, rebuilder),
        report: [Ran {
            cell: Cell::FIRST,
            cause: Cell::FIRST,
        }; CELLS],
        chain: [Cell::FIRST; CELLS],
        work: [whole(0); WORK],
    };
    desk.calibrate(rt)?;
    desk.mistake(rt)?;
    desk.fault(rt)
}

// Makes the parts from memory that has passed its checks.
fn start(rt: &HostRuntime, values: &mut [Whole], traces: &mut [Whole]) -> io::Result<()> {
    if let Err(refusal) = PanelStore::check(values).and(VerifyingTraces::check(traces)) {
        return print_done(rt, Err(refusal));
    }
    let store = PanelStore::new(values, FACTORY);
    let rebuilder: VerifyingTraces<Whole> = VerifyingTraces::new(traces);
    work(rt, store, Fallbacks::new(), rebuilder)
}

// Memory that lacks a place for the last cell is refused before anything is made of it.
fn start_short(rt: &HostRuntime) -> io::Result<()> {
    let mut values = [whole(0); SHORT];
    let mut traces = [whole(0); TRACE];
    start(rt, &mut values, &mut traces)
}

// A panel with three values from the factory.
fn start_panel(rt: &HostRuntime) -> io::Result<()> {
    let mut values = [whole(0); CELLS];
    values[FACTORY] = whole(96);
    values[FACTORY + 1] = whole(250);
    values[FACTORY + 2] = whole(4000);
    let mut traces = [whole(0); TRACE];
    start(rt, &mut values, &mut traces)
}

fn main(rt: HostRuntime) -> io::Result<()> {
    start_short(&rt)?;
    start_panel(&rt)
}

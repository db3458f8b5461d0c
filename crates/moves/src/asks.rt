// Reading a cell, and what an ask for one may fault with.
ghost use Rattle.std.specs.Prelude.{◌≡◌, false, T, map, length, ◌≢◌};
ghost use Rattle.std.proofs.Math.Option.{none};
ghost use Rattle.interfaces.specs.Asks.{asked_cells};
ghost use Rattle.interfaces.specs.Cells.{number_of};
ghost use Rattle.past.specs.Afresh.{In};
ghost use Rattle.table.specs.Records.{record_in, cause_in};
ghost use Rattle.moves.specs.Moves.{fault_number, ask_fault, AskFaults, AskChecked};
ghost use Rattle.moves.specs.Paths.{path_cells};

use crate::answer::{Fault, Layer};
use crate::path::Path;
use interfaces::cell::ASKS;
use interfaces::{Asked, Cell, Store, Value};
use table::Table;

/// What is wrong with an ask, with the number of its fault.
#[derive(Clone, Copy, PartialEq, Eq)]
pub enum AskFault {
    /// It is for a cell in doubt that is being worked out.
    Circle = 16,
    /// It is one more than a task may make.
    NinthAsk = 17,
}

impl AskFault {
    /// The number of the engine's fault.
    pub fn number(self) -> u8
        ensures { result ≡ fault_number self }
    {
        self as u8
    }

    /// The fault of a cell that asked for another, with a chain of this length.
    pub fn locate(self, cell: Cell, wanted: Cell, chain: usize) -> Fault
        ensures { result ≡ ask_fault self cell (number_of wanted) chain }
    {
        Fault {
            number: self.number(),
            mark: wanted.number() as u16,
            cell,
            layer: Layer::Engine,
            chain,
        }
    }
}

/// The stored value of a cell.
pub fn read_stored<V: Value, S: Store<V>>(store: &S, cell: Cell) -> V
    ensures { V.Value.canon result ≡ V.Value.canon (S.Store.shows store.now (number_of cell)) }
{
    store.read(cell)
}

/// Whether the cell is in doubt.
pub fn in_doubt(table: &Table, cell: Cell) -> bool
    ensures yes { T result → cause_in (record_in table.now) (number_of cell) ≢ none }
    ensures no { result ≡ false → cause_in (record_in table.now) (number_of cell) ≡ none }
{
    table.get(cell).cause.is_some()
}

// Whether asking for the cell closes a circle.
fn closes_circle(table: &Table, cell: Cell, path: &Path) -> bool
    ensures yes { T result → (cause_in (record_in table.now) (number_of cell) ≢ none) × In (number_of cell) (map number_of (path_cells path.now)) }
    ensures no { result ≡ false → (cause_in (record_in table.now) (number_of cell) ≢ none) → In (number_of cell) (map number_of (path_cells path.now)) → ⊥ }
{
    in_doubt(table, cell) && path.holds(cell)
}

// Lets a cell be asked for, on this path and after these other asks.
fn let_ask(table: &Table, cell: Cell, path: &Path, asked: &Asked) -> Result<(), AskFault>
    ensures { AskFaults (length (asked_cells asked.now)) (cause_in (record_in table.now) (number_of cell) ≢ none) (In (number_of cell) (map number_of (path_cells path.now))) result }
{
    if asked.len() >= ASKS {
        return Err(AskFault::NinthAsk);
    }
    if closes_circle(table, cell, path) {
        return Err(AskFault::Circle);
    }
    Ok(())
}

/// Lets the cell, which is last on the path and has asked for these others, ask for another, or faults.
pub fn check_ask(
    table: &Table,
    cell: Cell,
    wanted: Cell,
    path: &Path,
    asked: &Asked,
) -> Result<(), Fault>
    ensures { AskChecked cell (number_of wanted) (length (asked_cells asked.now)) (length (path_cells path.now))
        (cause_in (record_in table.now) (number_of wanted) ≢ none) (In (number_of wanted) (map number_of (path_cells path.now))) result }
{
    let_ask(table, wanted, path, asked).map_err(|fault| fault.locate(cell, wanted, path.len()))
}

// What a query reports: its runs and its faults.
ghost use Rattle.std.specs.Prelude.{◌≡◌};
ghost use Rattle.moves.specs.declared.answer.Layer.TheVariants.{Language};

use interfaces::{Cell, LanguageFault};

/// Who has given a fault its number.
#[derive(Clone, Copy)]
pub enum Layer {
    Engine,
    Language,
}

/// A fault: its number and mark, the cell that it came up at, and how many cells were being worked out.
#[derive(Clone, Copy)]
pub struct Fault {
    pub number: u8, // not an enum: a language chooses the numbers of its faults
    pub mark: u16,
    pub cell: Cell,
    pub layer: Layer,
    pub chain: usize,
}

/// A language's fault, with the cell that it came up at and the length of the chain.
#[derive(Clone, Copy)]
pub struct Located {
    pub fault: LanguageFault,
    pub cell: Cell,
    pub chain: usize,
}

impl From<Located> for Fault {
    ghost from_gives = { λ l r. r ≡ record { number = l.fault.number; mark = l.fault.mark; cell = l.cell; layer = Language; chain = l.chain } };

    fn from(located: Located) -> Fault {
        Fault {
            number: located.fault.number,
            mark: located.fault.mark,
            cell: located.cell,
            layer: Layer::Language,
            chain: located.chain,
        }
    }
}

/// A reported run: the cell whose task ran, and the cause of its doubt.
#[derive(Clone, Copy)]
pub struct Ran {
    pub cell: Cell,
    pub cause: Cell,
}

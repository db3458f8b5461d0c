// The formulas over whole numbers: their grammar, what they mean, and the reader that tells what a text stands for.
#![tactic(auto)]

ghost use Rattle.formula.specs.Figures.{SheetFigures};
ghost use Rattle.formula.specs.Grammar.{OneReading};
ghost use Rattle.formula.specs.Reader.{StandsRight};

pub mod byte;

/// A text is a formula in one way at most.
pub fn one_reading() -> u8
    ensures { OneReading }
{
    0
}

/// A text stands for what its formula means, and goes wrong where no formula goes on so.
pub fn stands_right() -> u8
    ensures { StandsRight }
{
    0
}

/// Worked figures of the language.
pub fn sheet_figures() -> u8
    ensures { SheetFigures }
{
    0
}

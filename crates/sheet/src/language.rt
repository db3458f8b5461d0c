// The language of formulas: their grammar, over the memory of the texts.
ghost use Rattle.std.specs.Prelude.{◌≡◌, List};
ghost use Rattle.interfaces.specs.Tasks.{step_means};
ghost use Rattle.whole.specs.Whole.{whole_canon};
ghost use Rattle.whole.specs.declared.Whole.{Whole};
ghost use Rattle.formula.specs.Meaning.{act_of};
ghost use Rattle.formula.specs.Reader.{stands};
ghost use Rattle.formula.specs.Own.{stands_own};
ghost use Rattle.sheet_work.specs.Flows.{outcome_of};
ghost use Rattle.sheet.specs.Laws.{formula_full, formula_within};

use grammars::{Grammar, Texts};
use interfaces::step::Step;
use interfaces::value::Value;
use sheet_reader::read;
use sheet_work::flow::Worked;
use whole::Whole;

/// The grammar of formulas.
#[derive(Drop)]
pub struct Formulas;

/// A formula for each cell.
pub type Sheet<'a> = Texts<'a, Formulas>;

// The step that a formula comes to.
fn step_from(got: Worked) -> Step<Whole>
    ensures { (answers : List Whole) → step_means whole_canon result ≡ act_of (outcome_of answers got) }
{
    match got {
        Ok(got) => Step::Give(got.value),
        Err(step) => step,
    }
}

impl Grammar<Whole> for Formulas {
    ghost stands = { stands };

    ghost own = { stands_own };

    fn rule(text: &[u8]) -> Result<(), usize> {
        let _ = read(text, &[])?; // whatever it comes to
        Ok(())
    }

    fn step_of(text: &[u8], answers: &[Whole]) -> Step<Whole> {
        match read(text, answers) {
            Ok(got) => step_from(got),
            Err(_) => Step::Give(Whole::blank_value()),
        }
    }

    ghost full = { formula_full };

    ghost within = { formula_within };
}

// The language of fragments: their grammar, over the memory of the texts.
ghost use Rattle.fragment_grammar.specs.Stands.{fragment_stands};
ghost use Rattle.fragment_grammar.specs.Faults.{fragment_own};
ghost use Rattle.fragment.specs.Laws.{fragment_full, fragment_within};

use crate::item::row_from;
use crate::run;
use grammars::{Grammar, Texts};
use interfaces::step::Step;
use text::Text;

/// The grammar of fragments.
#[derive(Drop)]
pub struct Fragments;

/// A fragment for each cell.
pub type Fragment<'a> = Texts<'a, Fragments>;

impl Grammar<Text> for Fragments {
    ghost stands = { fragment_stands };

    ghost own = { fragment_own };

    fn rule(text: &[u8]) -> Result<(), usize> {
        row_from(text, 0)
    }

    fn step_of(text: &[u8], answers: &[Text]) -> Step<Text> {
        run::step_of(text, answers)
    }

    ghost full = { fragment_full };

    ghost within = { fragment_within };
}

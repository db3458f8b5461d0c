// The language of a grammar: the texts of the cells in lent memory, and what they mean.
ghost use Rattle.std.specs.Prelude.{◌≡◌, ℕ, length};
ghost use Rattle.interfaces.specs.Refusals.{told};
ghost use Rattle.definitions.specs.Memory.{Roomy, checked, text_at};
ghost use Rattle.definitions.specs.Meant.{meant};

use crate::grammar::Grammar;
use definitions::TextMemory;
use interfaces::cell::{Cell, TEXT};
use interfaces::language::Language;
use interfaces::refusal::Refusal;
use interfaces::step::Step;
use interfaces::value::Value;
use std::marker::PhantomData;

/// A text of the grammar for each cell. What passed its check carries the proof of its length in its type.
#[derive(Drop)]
pub struct Texts<'a, G> {
    memory: TextMemory<'a>,
    grammar: PhantomData<G>,
    ghost room: { Roomy memory.bytes.now },
}

impl<'a, G> Texts<'a, G> {
    /// Whether memory serves for the language.
    pub fn check(bytes: &[u8]) -> Result<(), Refusal>
        ensures { told result ≡ checked (length bytes.now) }
    {
        TextMemory::check(bytes)
    }

    /// The language over memory that has passed its check, with the definitions that it holds.
    pub fn new(bytes: &'a mut [u8]) -> Texts<'a, G>
        requires { Roomy bytes.old }
        ensures holds { result.memory.bytes.now ≡ bytes.old }
        ensures lent { result.memory.bytes.ghost_name ≡ bytes.entry.ghost_name }
    {
        Texts {
            memory: TextMemory::new(bytes),
            grammar: PhantomData,
        }
    }
}

impl<'a, V: Value, G: Grammar<V>> Language<V> for Texts<'a, G> {
    ghost means = { λ s k. meant G.stands (text_at s.memory.bytes.now k) };

    ghost stands = { G.stands };

    ghost own = { G.own };

    fn step(&self, cell: Cell, answers: &[V]) -> Step<V> {
        G::step_of(self.memory.text(cell), answers)
    }

    fn place(&mut self, cell: Cell, text: &[u8]) -> Result<(), Refusal> {
        if text.is_empty() || text.len() > TEXT {
            return Err(Refusal::TextLength);
        }
        G::rule(text).map_err(|place| Refusal::NotInLanguage(place as u8))?;
        self.memory.put(cell, text);
        Ok(())
    }

    fn remove(&mut self, cell: Cell) {
        self.memory.remove(cell);
    }

    fn wipe(&mut self) {
        self.memory.wipe();
    }
}

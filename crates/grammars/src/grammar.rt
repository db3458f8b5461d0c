// Grammars: what a language says of one text.
ghost use Rattle.std.specs.Prelude.{◌≡◌, ℕ, ◌≤◌, false, List, map, length};
ghost use Rattle.interfaces.specs.Cells.{text_limit};
ghost use Rattle.interfaces.specs.Tasks.{Def, Verdict, Own, legal, illegal, step_means, step_of};
ghost use Rattle.definitions.specs.Memory.{zero_in};
ghost use Rattle.definitions.specs.Meant.{meant, ruled};

use interfaces::step::Step;
use interfaces::value::Value;

/// A grammar over a kind of value: which texts are in a language, and the steps of those that are. What it says of a
/// text of more than 48 bytes does not count.
pub trait Grammar<V: Value> {
    // what a text stands for
    ghost stands: { List ℕ → Verdict V };

    // a text in the language has no fault with a number of the engine
    ghost own: { (text : List ℕ) → Own (stands text) };

    // Each of the two clauses asks for the bound: a struct that carries it would be made for one call and taken apart in it.
    /// Whether the text is in the language, or else the length of its longest beginning that also begins a text in it.
    fn rule(text: &[u8]) -> Result<(), usize>
        ensures { length text.now ≤ text_limit → result ≡ ruled (stands text.now) };

    /// The step of a cell that holds this text; a text that is not in the language is no definition.
    fn step_of(text: &[u8], answers: &[V]) -> Step<V>
        ensures { length text.now ≤ text_limit → step_means V.Value.canon result ≡ step_of V.Value.blank (meant stands text.now) (map V.Value.canon answers.now) };

    // memory holds a text up to its first zero byte, so that a text in the language has none
    ghost full: { (text : List ℕ) (d : Def V) → stands text ≡ legal d → zero_in text ≡ false };

    // the place where a text goes wrong is in the text, or at its end
    ghost within: { (text : List ℕ) (place : ℕ) → stands text ≡ illegal place → place ≤ length text };
}

// The texts of the fragment language and what they mean: its grammar, and theorems that the contracts below state.
#![tactic(auto)]

ghost use Rattle.fragment_grammar.specs.Figures.{Twice, Plain33};
ghost use Rattle.fragment_grammar.specs.Stands.{OneReading, StandsRight};

/// A text is a row of items in one way only.
pub fn one_reading() -> u8
    ensures { OneReading }
{
    0
}

/// What a text stands for agrees with the grammar, also where it goes wrong.
pub fn stands_right() -> u8
    ensures { StandsRight }
{
    0
}

/// `{A1}{A1}` with 16 bytes in A1 gives 32 bytes, and with 17 faults at its second item.
pub fn twice() -> u8
    ensures { Twice }
{
    0
}

/// 33 plain bytes are a fragment that faults at its last byte.
pub fn plain_33() -> u8
    ensures { Plain33 }
{
    0
}

// What can go wrong when a formula is worked out.
ghost use Rattle.std.specs.Prelude.{◌≡◌};
ghost use Rattle.sheet_work.specs.Wrongs.{wrong_number};

/// What goes wrong, with the number of its fault.
#[derive(Clone, Copy, PartialEq, Eq)]
pub enum Wrong {
    BeyondLimits = 11,
    DivisorZero = 12,
    NoSuchCell = 13,
}

impl Wrong {
    /// The number that the fault has.
    pub fn number(self) -> u8
        ensures { result ≡ wrong_number self }
    {
        self as u8
    }
}

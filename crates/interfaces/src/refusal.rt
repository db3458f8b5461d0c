// Why a call was refused.
ghost use Rattle.std.specs.Prelude.{◌≡◌, ℕ};
ghost use Rattle.interfaces.specs.Refusals.{said, said_number, said_place};

#[derive(Clone, Copy)]
pub enum Refusal {
    /// Memory shorter than stated.
    ShortMemory,
    /// Edit of a defined cell.
    DefinedCell,
    /// Edit or definition of a locked cell, or a write to one.
    LockedCell,
    /// Clear of a cell without definition.
    UndefinedCell,
    /// A definition that is empty or longer than 48 bytes.
    TextLength,
    /// A definition that is not in the language, and the place where it goes wrong.
    NotInLanguage(u8),
    /// Bytes that are no written number within limits.
    NotANumber,
    /// Bytes that are no text.
    NotAText,
    /// More than eight pairs to record, or lists of unequal length.
    BadTrace,
    /// An answer line longer than its buffer.
    AnswerTooLong,
    /// A script of more than 60,000 bytes.
    ScriptTooLong,
    /// No first line, or a bad one.
    BadFirstLine,
    /// A script line longer than 64 bytes.
    LineTooLong,
    /// A script line of no known form.
    UnknownLine,
}

impl Refusal {
    /// The number under which the refusal is reported.
    pub fn number(self) -> u8
        ensures { result ≡ said_number (said self) }
    {
        match self {
            Refusal::ShortMemory => 1,
            Refusal::DefinedCell => 2,
            Refusal::LockedCell => 3,
            Refusal::UndefinedCell => 4,
            Refusal::TextLength => 5,
            Refusal::NotInLanguage(_) => 6,
            Refusal::NotANumber => 7,
            Refusal::NotAText => 8,
            Refusal::BadTrace => 9,
            Refusal::AnswerTooLong => 10,
            Refusal::LineTooLong => 18,
            Refusal::UnknownLine => 19,
            Refusal::BadFirstLine => 20,
            Refusal::ScriptTooLong => 21,
        }
    }

    /// The place that is reported beside the number 6.
    pub fn place(self) -> Option<u8>
        ensures { result ≡ said_place (said self) }
    {
        match self {
            Refusal::NotInLanguage(place) => Some(place),
            _ => None,
        }
    }
}

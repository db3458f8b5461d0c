// Whole numbers from -1,000,000,000 to 1,000,000,000. A record that holds a number beyond these limits
// means the blank, 0. Nothing is assumed of a record or of bytes that come in.
#![tactic(auto)]

ghost use Rattle.std.specs.Prelude.{◌≡◌, ◌≤◌, ◌∷◌, decimal, MatchOption, unsigned_abs};
ghost use Rattle.std.specs.Fmt.{signed_decimal};
ghost use Rattle.interfaces.specs.Printing.{written_bytes};
ghost use Rattle.whole.specs.Whole.{whole_limit, whole_blank, whole_means, whole_canon, whole_alike, whole_new, written_whole, WholeForm, NoNumeral, NoNumber};
ghost use Rattle.std.proofs.Common.{rules};
ghost use Rattle.whole.specs.Numbers.{same_meaning};

use interfaces::refusal::Refusal;
use interfaces::value::{Printed, Value};
use interfaces::written::Written;
use itoa::{Buffer, Integer};

/// How far a whole number may lie from 0.
pub const LIMIT: u32 = 1_000_000_000;

/// A whole number within limits.
#[derive(Clone, Copy)]
pub struct Whole {
    value: i32,
}

impl Whole {
    /// The record of a number, if that lies within the limits.
    pub fn new(value: i32) -> Option<Whole>
        ensures { result ≡ whole_new value }
    {
        if value.unsigned_abs() <= LIMIT {
            Some(Whole { value })
        } else {
            None
        }
    }

    /// The number that the record means.
    pub fn value(self) -> i32
        ensures { result ≡ whole_means self }
    {
        if self.value.unsigned_abs() <= LIMIT {
            self.value
        } else {
            0
        }
    }
}

impl Value for Whole {
    ghost canon = { whole_canon };

    ghost blank = { whole_blank };

    ghost alike = { whole_alike };

    ghost steady = { Prim.search rules };

    ghost plain = { Prim.search rules };

    ghost alike_sound = { Prim.search rules };

    ghost alike_whole = { Prim.search rules };

    fn blank_value() -> Whole {
        Whole { value: 0 }
    }

    fn is_like(&self, other: &Whole) -> bool {
        self.value() == other.value()
    }

    fn settled(self) -> Whole {
        Whole {
            value: self.value(),
        }
    }
}

impl Printed for Whole {
    ghost written = { λ w. written_whole w.value };

    ghost unread = { 7 };

    ghost one_form = { Prim.search rules };

    ghost reads_back = { λ x y e. same_meaning x y e };

    fn read(text: &[u8]) -> Result<Whole, Refusal> {
        number(text).ok_or(Refusal::NotANumber)
    }

    fn write(&self) -> Written {
        form_of(self.value())
    }
}

/// The decimal form of a number of any size.
pub fn write_number(n: u32) -> Written
    ensures { written_bytes result ≡ decimal n }
{
    form_of(n)
}

/// Tells in its contract what the written form of a number is, in words that name no program.
pub fn whole_form() -> u8
    ensures { WholeForm }
{
    0
}

// The decimal form of a number of a type whose longest number fits.
fn form_of<I: Integer>(n: I) -> Written
    requires { I.MAX_STR_LEN ≤ 32 }
    ensures { written_bytes result ≡ I.text n }
{
    let mut buffer = Buffer::new();
    Written::from_pieces(buffer.format(n).as_bytes(), &[]).unwrap()
}

// The number within the limits that the bytes write. Digit by digit, since `parse` reads text alone, and also takes a
// plus sign, zeros in front and `-0`: to look for these too costs more than the reading.
fn number(text: &[u8]) -> Option<Whole>
    ensures { MatchOption result (NoNumber text.now) (λ w. written_whole w.value ≡ text.now) }
{
    let value = match text {
        [b'-', digits @ ..] => negative(digits)?,
        _ => numeral(text)? as i32, // at most LIMIT
    };
    Some(Whole { value })
}

// The number below 0 whose digits these are.
fn negative(digits: &[u8]) -> Option<i32>
    ensures { MatchOption result (NoNumber (45 ∷ digits.now)) (λ z. (unsigned_abs z ≤ whole_limit) × (signed_decimal z ≡ 45 ∷ digits.now)) }
{
    match numeral(digits)? {
        0 => None,
        n => Some(-(n as i32)), // at most LIMIT
    }
}

// The number within the limits that the digits write.
fn numeral(digits: &[u8]) -> Option<u32>
    ensures { MatchOption result (NoNumeral digits.now) (λ n. (n ≤ whole_limit) × (decimal n ≡ digits.now)) }
{
    // a zero stands in front of no other digit
    if let [] | [b'0', _, ..] = digits {
        return None;
    }
    let mut n: u32 = 0;
    for digit in digits {
        if !digit.is_ascii_digit() {
            return None;
        }
        n = n.checked_mul(10)?.checked_add(u32::from(*digit - b'0'))?;
    }
    if n <= LIMIT { Some(n) } else { None }
}

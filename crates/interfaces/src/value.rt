// Kinds of value, and those that can be read from bytes and written as bytes.
ghost use Rattle.std.specs.Prelude.{◌≡◌, ℕ, ◌+◌, ◌≤◌, Bool, true, List, ◌++◌, length, take, drop, MatchResult, ◌≢◌};
ghost use Rattle.std.specs.Option.{option_map};
ghost use Rattle.interfaces.specs.Printing.{written_bytes, written_pieces};
ghost use Rattle.interfaces.specs.Refusals.{Said, said, no};

use crate::refusal::Refusal;
use crate::written::{WRITTEN, Written};

/// A kind of value. A record means its normal form: two values mean the same if they have one normal form.
pub trait Value: Copy {
    // the normal form
    ghost canon: { Self → Self };

    // the value of a cell that was never given one
    ghost blank: { Self };

    // whether two values mean the same
    ghost alike: { Self → Self → Bool };

    fn blank_value() -> Self
        ensures { result ≡ blank };

    fn is_like(&self, other: &Self) -> bool
        ensures { result ≡ alike self.now other.now };

    fn settled(self) -> Self
        ensures { result ≡ canon self };

    ghost steady: { (x : Self) → canon (canon x) ≡ canon x };

    ghost plain: { canon blank ≡ blank };

    ghost alike_sound: { (x y : Self) → alike x y ≡ true → canon x ≡ canon y };

    ghost alike_whole: { (x y : Self) → canon x ≡ canon y → alike x y ≡ true };
}

/// A kind that can also be read from bytes and written as bytes.
pub trait Printed: Value {
    // the bytes that a value is written as
    ghost written: { Self → List ℕ };

    // the number of the refusal of bytes that are no written value
    ghost unread: { ℕ };

    fn read(text: &[u8]) -> Result<Self, Refusal>
        ensures { MatchResult result (λ v. written v ≡ text.now) (λ e. (said e ≡ no unread) × ((v : Self) → written v ≢ text.now)) };

    fn write(&self) -> Written
        ensures { written_bytes result ≡ written self.now };

    ghost one_form: { (x : Self) → written (Self.Value.canon x) ≡ written x };

    ghost reads_back: { (x y : Self) → written x ≡ written y → Self.Value.canon x ≡ Self.Value.canon y };
}

impl Written {
    /// The bytes that are written.
    pub fn as_slice(&self) -> &[u8]
        ensures { result.now ≡ written_bytes self.now }
    {
        &self.bytes[0..self.len]
    }

    /// The written form that two pieces make, one behind the other, if they fit.
    pub fn from_pieces(front: &[u8], rest: &[u8]) -> Option<Written>
        ensures { option_map written_bytes result ≡ written_pieces front.now rest.now }
    {
        if front.len() > WRITTEN || rest.len() > WRITTEN - front.len() {
            return None;
        }
        let len = front.len() + rest.len();
        let mut bytes = [0; WRITTEN];
        put(&mut bytes, 0, front);
        put(&mut bytes, front.len(), rest);
        Some(Written { bytes, len })
    }
}

// Writes a piece over the bytes from `at` on.
fn put(bytes: &mut [u8], at: usize, piece: &[u8])
    requires { at + length piece.now ≤ length bytes.old }
    ensures { bytes.new ≡ take at bytes.old ++ (piece.now ++ drop (at + length piece.now) bytes.old) }
{
    let end = at + piece.len();
    bytes[at..end].copy_from_slice(piece);
}

/// Writes a value and reads it back: what comes back means the same, and no written form is refused.
pub fn read_back<P: Printed>(value: &P) -> Result<P, Refusal>
    ensures { MatchResult result (λ v. P.Value.canon v ≡ P.Value.canon value.now) (λ _. ⊥) }
{
    let form = value.write();
    P::read(form.as_slice())
}

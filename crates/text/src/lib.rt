// Texts of at most 32 bytes, each from 32 to 126, packed into four words. A record that breaks its form
// means the blank, the empty text. Nothing is assumed of a record or of bytes that come in.
#![tactic(auto)]

ghost use Rattle.std.specs.Prelude.{◌≡◌, ◌+◌, ◌≤◌, true, [], ◌∷◌, take, drop};
ghost use Rattle.interfaces.specs.Printing.{written_bytes};
ghost use Rattle.text.specs.Text.{printable_byte, printable_bytes, only_zeros, word_of, text_bytes, sound_text, text_blank, text_canon, text_means, text_length, text_empty, text_alike, text_of, text_extended, text_appended, text_pushed, Extends, TextForm};
ghost use Rattle.std.proofs.Common.{rules};
ghost use Rattle.text.specs.Packing.{same_text};

use interfaces::refusal::Refusal;
use interfaces::value::{Printed, Value};
use interfaces::written::{WRITTEN, Written};

// the most bytes that a text has
const LONGEST: usize = 32;

// the first and the last byte that a text may have
const FIRST: u8 = b' ';

const LAST: u8 = b'~';

/// A text: byte `i` of it is byte `i % 8` of word `i / 8`, from the word's little end, and zeros follow.
/// `==` compares the records; `is_like` compares what they mean.
// Four words and a length: the form of a text that the project prescribes, for it fits fixed memory.
#[derive(Clone, Copy, PartialEq, Eq)]
pub struct Text {
    a: u64,
    b: u64,
    c: u64,
    d: u64,
    len: u8,
}

fn is_printable(byte: u8) -> bool
    ensures { result ≡ printable_byte byte }
{
    (FIRST..=LAST).contains(&byte)
}

fn all_printable(bytes: &[u8]) -> bool
    ensures { result ≡ printable_bytes bytes.now }
{
    bytes.iter().all(|byte| is_printable(*byte))
}

fn all_zero(bytes: &[u8]) -> bool
    ensures { result ≡ only_zeros bytes.now }
{
    bytes.iter().all(|byte| *byte == 0)
}

// The word that lies in the bytes from `at` on.
fn word(bytes: &[u8; WRITTEN], at: usize) -> u64
    requires { at + 8 ≤ 32 }
    ensures { result ≡ word_of (take 8 (drop at bytes.now)) }
{
    u64::from_le_bytes(*bytes[at..].first_chunk().unwrap())
}

// The record of the text that is written.
fn packed(form: &Written) -> Text
    ensures { result ≡ text_of (written_bytes form.now) }
{
    Text {
        a: word(&form.bytes, 0),
        b: word(&form.bytes, 8),
        c: word(&form.bytes, 16),
        d: word(&form.bytes, 24),
        len: form.len as u8,
    }
}

impl Text {
    // The 32 bytes of the record.
    fn bytes(self) -> [u8; WRITTEN]
        ensures { result ≡ text_bytes self }
    {
        let mut bytes = [0; WRITTEN];
        bytes[..8].copy_from_slice(&self.a.to_le_bytes());
        bytes[8..16].copy_from_slice(&self.b.to_le_bytes());
        bytes[16..24].copy_from_slice(&self.c.to_le_bytes());
        bytes[24..].copy_from_slice(&self.d.to_le_bytes());
        bytes
    }

    fn is_sound(self) -> bool
        ensures { result ≡ sound_text self }
    {
        let len = usize::from(self.len);
        if len > LONGEST {
            return false;
        }
        let bytes = self.bytes();
        all_printable(&bytes[..len]) && all_zero(&bytes[len..])
    }
}

impl Value for Text {
    ghost canon = { text_canon };

    ghost blank = { text_blank };

    ghost alike = { text_alike };

    ghost steady = { Prim.search rules };

    ghost plain = { Prim.search rules };

    ghost alike_sound = { Prim.search rules };

    ghost alike_whole = { Prim.search rules };

    fn blank_value() -> Text {
        Text {
            a: 0,
            b: 0,
            c: 0,
            d: 0,
            len: 0,
        }
    }

    fn is_like(&self, other: &Text) -> bool {
        *self == *other || self.settled() == other.settled()
    }

    fn settled(self) -> Text {
        if self.is_sound() {
            self
        } else {
            <Text as Value>::blank_value()
        }
    }
}

impl Text {
    /// How many bytes the text has.
    pub fn len(self) -> usize
        ensures { result ≡ text_length self }
    {
        let normal = self.settled();
        usize::from(normal.len)
    }

    /// Whether the text has no bytes.
    pub fn is_empty(self) -> bool
        ensures { result ≡ text_empty self }
    {
        self.len() == 0
    }

    /// The text with another behind it, if the two fit.
    pub fn append(self, other: Text) -> Option<Text>
        ensures equal { result ≡ text_appended self other }
        ensures means { Extends (text_means self) (text_means other) result }
    {
        self.extended(other.write().as_slice())
    }

    /// The text with a byte behind it, if there is room and a text may have the byte.
    pub fn push(self, byte: u8) -> Option<Text>
        ensures equal { result ≡ text_pushed self byte }
        ensures means { printable_byte byte ≡ true → Extends (text_means self) (byte ∷ []) result }
    {
        if is_printable(byte) {
            self.extended(&[byte])
        } else {
            None
        }
    }

    // The text with bytes behind it, if they fit.
    fn extended(self, more: &[u8]) -> Option<Text>
        ensures { result ≡ text_extended self more.now }
    {
        let form = Written::from_pieces(self.write().as_slice(), more)?;
        Some(packed(&form))
    }
}

impl Printed for Text {
    ghost written = { text_means };

    ghost unread = { 8 };

    ghost one_form = { Prim.search rules };

    ghost reads_back = { λ x y e. same_text x y e };

    fn read(text: &[u8]) -> Result<Text, Refusal> {
        let form = Written::from_pieces(text, &[]).ok_or(Refusal::NotAText)?;
        if all_printable(text) {
            Ok(packed(&form))
        } else {
            Err(Refusal::NotAText)
        }
    }

    fn write(&self) -> Written {
        let text = self.settled();
        Written {
            bytes: text.bytes(),
            len: usize::from(text.len),
        }
    }
}

/// Tells in its contract which bytes are the written form of a text.
pub fn text_form() -> u8
    ensures { TextForm }
{
    0
}

// What a byte can be in a formula.
ghost use Rattle.std.specs.Prelude.{◌≡◌};
ghost use Rattle.formula.specs.Bytes.{link_of, start_of};

/// An operator between two operands.
#[derive(Clone, Copy)]
pub enum Operator {
    Plus,
    Minus,
    Times,
    Over,
    Modulo,
}

/// What a byte is after an operand: it joins terms, it joins factors, or neither.
#[derive(Clone, Copy)]
pub enum Link {
    Weak(Operator),
    Strong(Operator),
    Loose,
}

/// How a factor begins.
#[derive(Clone, Copy)]
pub enum Start {
    Negation,
    Group,
    Choice,
    Lookup,
    Total,
    Digit(u8),
    Column(u8),
    Other,
}

pub fn link_of(byte: u8) -> Link
    ensures { result ≡ link_of byte }
{
    match byte {
        b'+' => Link::Weak(Operator::Plus),
        b'-' => Link::Weak(Operator::Minus),
        b'*' => Link::Strong(Operator::Times),
        b'/' => Link::Strong(Operator::Over),
        b'%' => Link::Strong(Operator::Modulo),
        _ => Link::Loose,
    }
}

pub fn start_of(byte: u8) -> Start
    ensures { result ≡ start_of byte }
{
    match byte {
        b'-' => Start::Negation,
        b'(' => Start::Group,
        b'i' => Start::Choice,
        b'a' => Start::Lookup,
        b's' => Start::Total,
        b'0'..=b'9' => Start::Digit(byte - b'0'),
        b'A'..=b'P' => Start::Column(byte - b'A'),
        _ => Start::Other,
    }
}

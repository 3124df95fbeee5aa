// What a byte of a line is.

ghost use Rattle.std.specs.Prelude.{◌≡◌};
ghost use Rattle.dia_tokens.specs.Kinds.{kind_of, symbol_kind_of};

use crate::Symbol;

#[derive(Clone, Copy, Debug, PartialEq, Eq)]
pub(crate) enum Kind {
    Blank,
    Hash,
    Letter,
    Digit,
    Dash,
    Bang,
    // A symbol, and the longer one that it makes with a `=` after it.
    Pair(Symbol, Symbol),
    Plain(Symbol),
    Other,
}

#[tactic(auto, unfolding(crate::specs::Kinds::symbol_kind_of))]
fn symbol_kind_at(byte: u8) -> Kind
    ensures { result ≡ symbol_kind_of byte }
{
    match byte {
        b'=' => Kind::Pair(Symbol::Assign, Symbol::Equal),
        b'<' => Kind::Pair(Symbol::Less, Symbol::AtMost),
        b'>' => Kind::Pair(Symbol::Greater, Symbol::AtLeast),
        b'+' => Kind::Plain(Symbol::Plus),
        b'*' => Kind::Plain(Symbol::Star),
        b'/' => Kind::Plain(Symbol::Slash),
        b'%' => Kind::Plain(Symbol::Percent),
        b'(' => Kind::Plain(Symbol::Open),
        b')' => Kind::Plain(Symbol::Close),
        b',' => Kind::Plain(Symbol::Comma),
        b'.' => Kind::Plain(Symbol::Point),
        _ => Kind::Other,
    }
}

#[inline(always)]
#[tactic(auto, unfolding(crate::specs::Kinds::kind_of))]
pub(crate) fn kind_at(byte: u8) -> Kind
    ensures { result ≡ kind_of byte }
{
    match byte {
        b' ' | b'\t' => Kind::Blank,
        b'#' => Kind::Hash,
        b'a'..=b'z' | b'A'..=b'Z' | b'_' => Kind::Letter,
        b'0'..=b'9' => Kind::Digit,
        b'-' => Kind::Dash,
        b'!' => Kind::Bang,
        _ => symbol_kind_at(byte),
    }
}

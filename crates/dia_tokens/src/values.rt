// The values of tokens.

ghost use Rattle.std.specs.Prelude.{◌≡◌, true, false, IfOk, IfErr, IfSome, IfNone};
ghost use Rattle.dia_tokens.specs.Pieces.{seen};
ghost use Rattle.dia_tokens.specs.Shapes.{IsShaped, IsNumberText, FailsOn, first_fault, line_fail};
ghost use Rattle.dia_tokens.specs.Values.{number_of, is_in_range, is_narrow, is_short, HasValue};

use crate::piece::Piece;
use crate::{LineFail, Token};
use dbp_plan::{MAX_NAME, Name};

// Why a text has no value.
#[derive(Clone, Copy)]
pub(crate) enum ValueFail {
    // A number outside of 64 bits.
    NumberTooWide,
    // A name of more than 24 bytes.
    NameTooLong,
}

impl From<ValueFail> for LineFail {
    ghost from_gives = { λ fail e. e ≡ line_fail fail };

    fn from(fail: ValueFail) -> LineFail {
        match fail {
            ValueFail::NumberTooWide => LineFail::NumberTooWide,
            ValueFail::NameTooLong => LineFail::NameTooLong,
        }
    }
}

// The number that the text makes, if it fits in 64 bits.
fn number(text: &[u8]) -> Option<i64>
    requires { IsNumberText text.now }
    ensures some { IfSome result (λ n. (n ≡ number_of text.now) × (is_in_range text.now ≡ true)) }
    ensures none { IfNone result (is_in_range text.now ≡ false) }
{
    match std::str::from_utf8(text) {
        Ok(text) => text.parse().ok(),
        Err(_) => None,
    }
}

// The token with its value.
pub(crate) fn token_of(piece: Piece) -> Result<Token, ValueFail>
    requires { IsShaped (seen piece) }
    ensures found { IfOk result (λ t. HasValue (seen piece.entry) t) }
    ensures fails { IfErr result (λ e. FailsOn (seen piece.entry) e) }
{
    match piece {
        Piece::Keyword(keyword) => Ok(Token::Keyword(keyword)),
        Piece::Name(text) => {
            if text.len() <= MAX_NAME {
                Ok(Token::Name(Name::of_text(text)))
            } else {
                Err(ValueFail::NameTooLong)
            }
        }
        Piece::Number(text) => match number(text) {
            Some(number) => Ok(Token::Number(number)),
            None => Err(ValueFail::NumberTooWide),
        },
        Piece::Symbol(symbol) => Ok(Token::Symbol(symbol)),
    }
}

// Why the token has no value, if it has none.
pub(crate) fn fault_of(piece: Piece) -> Option<ValueFail>
    requires { IsShaped (seen piece) }
    ensures narrow { IfNone result (is_narrow (seen piece.entry) ≡ true) }
    ensures short { IfNone result (is_short (seen piece.entry) ≡ true) }
    ensures fails { IfSome result (λ e. FailsOn (seen piece.entry) e) }
{
    match piece {
        Piece::Name(text) => {
            if text.len() <= MAX_NAME {
                None
            } else {
                Some(ValueFail::NameTooLong)
            }
        }
        Piece::Number(text) => match number(text) {
            Some(_) => None,
            None => Some(ValueFail::NumberTooWide),
        },
        Piece::Keyword(_) | Piece::Symbol(_) => None,
    }
}

// The one of two faults of a line that is said: a number that is too wide goes before a name that is too long.
pub(crate) fn first_fault(fault: Option<ValueFail>, fail: ValueFail) -> ValueFail
    ensures { result ≡ first_fault fault fail }
{
    match fault {
        Some(ValueFail::NumberTooWide) => ValueFail::NumberTooWide,
        _ => fail,
    }
}

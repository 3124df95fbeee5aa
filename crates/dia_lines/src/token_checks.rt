// What is tried on the tokens of a line of the diagram before their form.

ghost use Rattle.std.specs.Prelude.{◌≡◌, ◌≤◌, length};
ghost use Rattle.dia_lines.specs.Lines.{is_header, lacks_header, after_assign as expression_after_assign, after_then as expression_after_then, expression_of, token_fault};

use crate::prefixes::version;
use crate::{Limit, Place, ReadCode};
use dbp_plan::MAX_NODES;
use dia_exprs::{MAX_DEPTH, depth, node_tokens};
use dia_tokens::{Keyword, Symbol, Token};

// Whether the tokens are the header.
fn is_header_line(tokens: &[Token]) -> bool
    ensures { result ≡ is_header tokens.now }
{
    match tokens {
        [Token::Keyword(Keyword::Dbp), Token::Number(value)] => version(*value).is_some(),
        _ => false,
    }
}

// Whether the header comes next, and the line has tokens that are none.
fn lacks_the_header(place: Place, tokens: &[Token]) -> bool
    ensures { result ≡ lacks_header place tokens.now }
{
    match (place, tokens) {
        (Place::Header, [_, ..]) => !is_header_line(tokens),
        _ => false,
    }
}

// The tokens after the first `=`.
fn after_assign(tokens: &[Token]) -> &[Token]
    ensures { result.now ≡ expression_after_assign tokens.now }
{
    let mut rest = tokens;
    while let [first, after @ ..] = rest {
        if matches!(first, Token::Symbol(Symbol::Assign)) {
            return after;
        }
        rest = after;
    }
    rest
}

// The tokens after the first `then`.
fn after_then(tokens: &[Token]) -> &[Token]
    ensures { result.now ≡ expression_after_then tokens.now }
{
    let mut rest = tokens;
    while let [first, after @ ..] = rest {
        if matches!(first, Token::Keyword(Keyword::Then)) {
            return after;
        }
        rest = after;
    }
    rest
}

// Where an expression stands on a line that begins as one with an expression does.
fn expression_tokens(tokens: &[Token]) -> &[Token]
    ensures { result.now ≡ expression_of tokens.now }
{
    match tokens {
        [Token::Keyword(Keyword::Let | Keyword::Next), rest @ ..] => after_assign(rest),
        [Token::Keyword(Keyword::Out), rest @ ..] => after_then(rest),
        _ => &[],
    }
}

// The first fault of the tokens, except for their form.
pub(crate) fn token_code(place: Place, tokens: &[Token]) -> Option<ReadCode>
    ensures { result ≡ token_fault place tokens.now }
{
    if lacks_the_header(place, tokens) {
        Some(ReadCode::MissingHeader)
    } else if node_tokens(expression_tokens(tokens)) > MAX_NODES as usize {
        Some(ReadCode::LimitHit(Limit::Nodes))
    } else if depth(tokens) > MAX_DEPTH as usize {
        Some(ReadCode::DepthHit)
    } else {
        None
    }
}

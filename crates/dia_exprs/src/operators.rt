// The tokens that are operators or marks, and what stands after them.

ghost use Rattle.std.specs.Prelude.{◌≡◌, ◌+◌, [], ◌∷◌, IfSome, IsNone, length};
ghost use Rattle.std.specs.Option.{option_map};
ghost use Rattle.dia_exprs.specs.Counts.{node_count};
ghost use Rattle.dia_exprs.specs.Grammar.{tighter, operator, comparison as compared, prefix as prefixed, called as is_called, operator_token as token_of};
ghost use Rattle.dia_exprs.specs.Reading.{if_at, then_at, else_at, open_at, comma_at, close_at};
ghost use Rattle.dia_exprs.specs.Parsing.{is_lone, operator_at, comparison_at, prefix_at};

use crate::Level;
use dbp_plan::{BinOp, UnOp};
use dia_tokens::{Keyword, Symbol, Token};

pub(crate) fn next_level(level: Level) -> Level
    ensures { result ≡ tighter level }
{
    match level {
        Level::Whole => Level::Disjunction,
        Level::Disjunction => Level::Conjunction,
        Level::Conjunction => Level::Comparison,
        Level::Comparison => Level::Sum,
        Level::Sum => Level::Product,
        Level::Product => Level::Prefixed,
        Level::Prefixed | Level::Factor => Level::Factor,
    }
}

#[tactic(auto, unfolding(crate::specs::Grammar::operator_of))]
fn operator_of(level: Level, token: &Token) -> Option<BinOp>
    ensures { result ≡ operator level token.now }
{
    match (level, token) {
        (Level::Disjunction, Token::Keyword(Keyword::Or)) => Some(BinOp::Or),
        (Level::Conjunction, Token::Keyword(Keyword::And)) => Some(BinOp::And),
        (Level::Sum, Token::Symbol(Symbol::Plus)) => Some(BinOp::Add),
        (Level::Sum, Token::Symbol(Symbol::Minus)) => Some(BinOp::Sub),
        (Level::Product, Token::Symbol(Symbol::Star)) => Some(BinOp::Mul),
        (Level::Product, Token::Symbol(Symbol::Slash)) => Some(BinOp::Div),
        (Level::Product, Token::Symbol(Symbol::Percent)) => Some(BinOp::Rem),
        _ => None,
    }
}

#[tactic(auto, unfolding(crate::specs::Grammar::operator_of))]
fn comparison(token: &Token) -> Option<BinOp>
    ensures { result ≡ compared token.now }
{
    match token {
        Token::Symbol(Symbol::Equal) => Some(BinOp::Eq),
        Token::Symbol(Symbol::Unequal) => Some(BinOp::Ne),
        Token::Symbol(Symbol::Less) => Some(BinOp::Lt),
        Token::Symbol(Symbol::AtMost) => Some(BinOp::Le),
        Token::Symbol(Symbol::Greater) => Some(BinOp::Gt),
        Token::Symbol(Symbol::AtLeast) => Some(BinOp::Ge),
        _ => None,
    }
}

fn prefix(token: &Token) -> Option<UnOp>
    ensures { result ≡ prefixed token.now }
{
    match token {
        Token::Symbol(Symbol::Minus) => Some(UnOp::Neg),
        Token::Keyword(Keyword::Not) => Some(UnOp::Not),
        _ => None,
    }
}

// The operator that a token is before two arguments.
#[tactic(auto, unfolding(crate::specs::Grammar::operator_of))]
pub(crate) fn called(token: &Token) -> Option<BinOp>
    ensures { result ≡ is_called token.now }
{
    match token {
        Token::Keyword(Keyword::Min) => Some(BinOp::Min),
        Token::Keyword(Keyword::Max) => Some(BinOp::Max),
        _ => None,
    }
}

/// The token that the operator is written with.
pub fn operator_token(op: BinOp) -> Token
    ensures { result ≡ token_of op }
{
    match op {
        BinOp::Add => Token::Symbol(Symbol::Plus),
        BinOp::Sub => Token::Symbol(Symbol::Minus),
        BinOp::Mul => Token::Symbol(Symbol::Star),
        BinOp::Div => Token::Symbol(Symbol::Slash),
        BinOp::Rem => Token::Symbol(Symbol::Percent),
        BinOp::Eq => Token::Symbol(Symbol::Equal),
        BinOp::Ne => Token::Symbol(Symbol::Unequal),
        BinOp::Lt => Token::Symbol(Symbol::Less),
        BinOp::Le => Token::Symbol(Symbol::AtMost),
        BinOp::Gt => Token::Symbol(Symbol::Greater),
        BinOp::Ge => Token::Symbol(Symbol::AtLeast),
        BinOp::And => Token::Keyword(Keyword::And),
        BinOp::Or => Token::Keyword(Keyword::Or),
        BinOp::Min => Token::Keyword(Keyword::Min),
        BinOp::Max => Token::Keyword(Keyword::Max),
    }
}

// The operator of the level at the front, and the tokens after it.
#[tactic(auto, unfolding(crate::specs::Grammar::operator_of))]
pub(crate) fn split_operator(level: Level, tokens: &[Token]) -> Option<(BinOp, &[Token])>
    ensures value { option_map (λ x. (x.0, x.1.now)) result ≡ operator_at level tokens.now }
    ensures shorter { IfSome result (λ x. length x.1.now + 1 ≡ length tokens.now) }
    ensures counts { IfSome result (λ x. node_count x.1.now + 1 ≡ node_count tokens.now) }
{
    match tokens {
        [token, rest @ ..] => match operator_of(level, token) {
            Some(op) => Some((op, rest)),
            None => None,
        },
        [] => None,
    }
}

// Whether a number or a name is a product of its own at the front of the tokens.
pub(crate) fn is_lone(tokens: &[Token]) -> bool
    ensures { result ≡ is_lone tokens.now }
{
    match tokens {
        [Token::Number(_) | Token::Name(_), next, ..] => {
            operator_of(Level::Product, next).is_none()
        }
        [Token::Number(_) | Token::Name(_)] => true,
        _ => false,
    }
}

// The comparison at the front, and the tokens after it.
#[tactic(auto, unfolding(crate::specs::Grammar::operator_of))]
pub(crate) fn split_comparison(tokens: &[Token]) -> Option<(BinOp, &[Token])>
    ensures value { option_map (λ x. (x.0, x.1.now)) result ≡ comparison_at tokens.now }
    ensures shorter { IfSome result (λ x. length x.1.now + 1 ≡ length tokens.now) }
    ensures counts { IfSome result (λ x. node_count x.1.now + 1 ≡ node_count tokens.now) }
{
    match tokens {
        [token, rest @ ..] => match comparison(token) {
            Some(op) => Some((op, rest)),
            None => None,
        },
        [] => None,
    }
}

// The prefix at the front, and the tokens after it.
pub(crate) fn split_prefix(tokens: &[Token]) -> Option<(UnOp, &[Token])>
    ensures value { option_map (λ x. (x.0, x.1.now)) result ≡ prefix_at tokens.now }
    ensures shorter { IfSome result (λ x. length x.1.now + 1 ≡ length tokens.now) }
    ensures counts { IfSome result (λ x. node_count x.1.now + 1 ≡ node_count tokens.now) }
{
    match tokens {
        [token, rest @ ..] => match prefix(token) {
            Some(op) => Some((op, rest)),
            None => None,
        },
        [] => None,
    }
}

// The tokens after `then`.
pub(crate) fn split_then(tokens: &[Token]) -> Option<&[Token]>
    ensures value { option_map (λ rest. rest.now) result ≡ then_at tokens.now }
    ensures shorter { IfSome result (λ rest. length rest.now + 1 ≡ length tokens.now) }
    ensures counts { IfSome result (λ rest. node_count rest.now ≡ node_count tokens.now) }
{
    match tokens {
        [Token::Keyword(Keyword::Then), rest @ ..] => Some(rest),
        _ => None,
    }
}

// The tokens after `else`.
pub(crate) fn split_else(tokens: &[Token]) -> Option<&[Token]>
    ensures value { option_map (λ rest. rest.now) result ≡ else_at tokens.now }
    ensures shorter { IfSome result (λ rest. length rest.now + 1 ≡ length tokens.now) }
    ensures counts { IfSome result (λ rest. node_count rest.now ≡ node_count tokens.now) }
{
    match tokens {
        [Token::Keyword(Keyword::Else), rest @ ..] => Some(rest),
        _ => None,
    }
}

// The tokens after `(`.
pub(crate) fn split_open(tokens: &[Token]) -> Option<&[Token]>
    ensures value { option_map (λ rest. rest.now) result ≡ open_at tokens.now }
    ensures shorter { IfSome result (λ rest. length rest.now + 1 ≡ length tokens.now) }
    ensures counts { IfSome result (λ rest. node_count rest.now ≡ node_count tokens.now) }
{
    match tokens {
        [Token::Symbol(Symbol::Open), rest @ ..] => Some(rest),
        _ => None,
    }
}

// The tokens after a comma.
pub(crate) fn split_comma(tokens: &[Token]) -> Option<&[Token]>
    ensures value { option_map (λ rest. rest.now) result ≡ comma_at tokens.now }
    ensures shorter { IfSome result (λ rest. length rest.now + 1 ≡ length tokens.now) }
    ensures counts { IfSome result (λ rest. node_count rest.now ≡ node_count tokens.now) }
{
    match tokens {
        [Token::Symbol(Symbol::Comma), rest @ ..] => Some(rest),
        _ => None,
    }
}

// The tokens after `)`.
pub(crate) fn split_close(tokens: &[Token]) -> Option<&[Token]>
    ensures value { option_map (λ rest. rest.now) result ≡ close_at tokens.now }
    ensures shorter { IfSome result (λ rest. length rest.now + 1 ≡ length tokens.now) }
    ensures counts { IfSome result (λ rest. node_count rest.now ≡ node_count tokens.now) }
{
    match tokens {
        [Token::Symbol(Symbol::Close), rest @ ..] => Some(rest),
        _ => None,
    }
}

// The tokens after `if`.
pub(crate) fn split_if(tokens: &[Token]) -> Option<&[Token]>
    ensures value { option_map (λ rest. rest.now) result ≡ if_at tokens.now }
    ensures shorter { IfSome result (λ rest. length rest.now + 1 ≡ length tokens.now) }
    ensures counts { IfSome result (λ rest. node_count rest.now + 1 ≡ node_count tokens.now) }
{
    match tokens {
        [Token::Keyword(Keyword::If), rest @ ..] => Some(rest),
        _ => None,
    }
}

// The first token, and the tokens after it.
pub(crate) fn split_token(tokens: &[Token]) -> Option<(&Token, &[Token])>
    ensures some { IfSome result (λ x. tokens.now ≡ x.0.now ∷ x.1.now) }
    ensures none { IsNone result → tokens.now ≡ [] }
{
    match tokens {
        [token, rest @ ..] => Some((token, rest)),
        [] => None,
    }
}

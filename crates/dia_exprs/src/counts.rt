// Counts of tokens.

ghost use Rattle.std.specs.Prelude.{◌≡◌, ◌+◌, ◌<◌, ◌^◌, ◌≤◌};
ghost use Rattle.dia_exprs.specs.Counts.{has_node as is_node, node_count, opened as opened_by, depth_of};

use dia_tokens::{Keyword, Symbol, Token};

/// Parentheses that may be open at once, at most.
pub const MAX_DEPTH: u32 = 64;

const _: () = prove!(MAX_DEPTH == 64);

/// How many of the tokens stand for a node of an expression: all but parentheses, commas, `then` and `else`.
pub fn node_tokens(tokens: &[Token]) -> usize
    ensures { result ≡ node_count tokens.now }
{
    tokens.iter().filter(|token| has_node(token)).count()
}

/// How many parentheses are open at once, at most. One that closes nothing counts for nothing.
pub fn depth(tokens: &[Token]) -> usize
    ensures { result ≡ depth_of tokens.now }
{
    let mut open = 0;
    let mut most = 0;
    for token in tokens {
        open = opened(open, token);
        most = most.max(open);
    }
    most
}

fn has_node(token: &Token) -> bool
    ensures { result ≡ is_node token.now }
{
    !matches!(
        token,
        Token::Symbol(Symbol::Open | Symbol::Close | Symbol::Comma)
            | Token::Keyword(Keyword::Then | Keyword::Else)
    )
}

// How many are open after the token.
fn opened(before: usize, token: &Token) -> usize
    requires { before + 1 < 2 ^ 64 }
    ensures { result ≡ opened_by before token.now }
{
    match token {
        Token::Symbol(Symbol::Open) => before + 1,
        Token::Symbol(Symbol::Close) => before.saturating_sub(1),
        _ => before,
    }
}

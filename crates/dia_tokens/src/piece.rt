// Tokens that have no value yet.

use crate::{Keyword, Symbol};

// A token as its text, which has no value yet.
#[derive(Clone, Copy)]
pub(crate) enum Piece<'a> {
    Keyword(Keyword),
    Name(&'a [u8]),
    Number(&'a [u8]),
    Symbol(Symbol),
}

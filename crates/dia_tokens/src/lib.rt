//! The tokens of a line of a diagram.
//!
//! Two relations say which tokens a line spells: `Lexes`, which texts its bytes make, and `HaveValues`, which values
//! these have. Each has a rule for each kind of token, and no order of trial. A line without tokens has the first of
//! four faults (`HasFault`). The code tests a line's bytes, goes over it once more, and puts the tokens in a list that
//! it is given, so that many lines share one. A spelling is a line's tokens with one space between them; `line_spells` says that tokens in
//! canonical spacing are read back.
#![tactic(auto)]

mod class;
mod edge;
mod kind;
mod laws;
mod lexing;
mod line;
mod piece;
mod reserved;
mod spelling;
mod token;
mod values;

pub use edge::Edge;
pub use laws::{line_spells, one_fault, one_list, one_spelling, read_keyword, spelled_again};
pub use line::{LineFail, all_allowed, tokens, tokens_into};
pub use spelling::{Spelling, line_spelling};
pub use token::{Keyword, Symbol, Token};

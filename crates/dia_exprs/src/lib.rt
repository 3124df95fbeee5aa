//! Expressions on the tokens of a line.
//!
//! The grammar is a relation, `Spells`, between tokens and trees, with a rule for each form and no order of trial;
//! tokens have one tree at most. The code descends level by level and adds nodes in post-order, so the list of nodes is
//! the tree. `expression` asks for at most 64 node tokens and 64 open parentheses, which `dia_lines` tries before it
//! calls: the first is the room of the list, the second bounds the stack.
#![tactic(auto)]

mod counts;
mod descent;
mod fail;
mod laws;
mod level;
mod operators;
mod parse;

pub use counts::{MAX_DEPTH, depth, node_tokens};
pub use fail::ExpressionFail;
pub use laws::{calls_are_listed, one_expression, one_node_a_token, read_operator};
pub use level::Level;
pub use operators::operator_token;
pub use parse::expression;

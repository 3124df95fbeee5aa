//! Canonical text: tokens on a line, and the tokens of expressions and of the lines of a document.
//!
//! A `Printer` adds the tokens of one line at a time: of a declaration (`decl_tokens`), of a task's first line
//! (`task_tokens`) or of its body (`part_tokens`). `ExpressionTokens` has those of an expression, where compound
//! operands alone stand in parentheses, so its text has one reading. `dia_read` puts the lines in order, and proves
//! that they are read back.
#![tactic(auto)]

mod expression;
mod items;
mod laws;
mod printer;

pub use laws::expression_tokens;
pub use printer::Printer;

//! The lines of a document: what each says after those before it, or its first fault.
//!
//! A line is read after the lines before it. The relations `Reads` and `HasFault` take the list of what those say; the
//! code carries a `Position` in its place, which is the version, how far the document has come, and seven counts
//! (`IsAfter`). A line of the diagram spells tokens, which are one statement (`IsStatement`, with a rule for each form) that may stand
//! there, with numbers and counts within their limits. A line of the trace is kept as it is, one of the script as it is
//! spelled. The faults of a line are tried in the order of `HasFault`: the four of its text, then header, nodes and
//! parentheses, then form and place, then numbers, then counts. `Delays` says how a delay is spelled, in documents and
//! in scripts.
#![tactic(auto)]

mod codes;
mod fault;
mod form;
mod item;
mod laws;
mod line;
mod line_forms;
mod place;
mod placement;
mod policy_keywords;
mod position;
mod prefixes;
mod ranges;
mod statement;
mod text;
mod token_checks;
mod trace;

pub use fault::{Limit, LineError, ReadCode};
pub use item::{Decl, Line, Part, RawClock, TaskLine};
pub use laws::{one_line_fault, one_reading, one_statement};
pub use line::{read_line, read_line_with};
pub use place::Place;
pub use policy_keywords::policy_keyword;
pub use position::{Counts, Position};
pub use prefixes::delay_at;
pub use ranges::short_delay;
pub use text::next_line;

//! The text of a diagram: what a document says, the first fault of a text that is none, and the canonical text.
//!
//! A text spells a document (`Spells`) if each of its lines is without fault and they come to `done`; the document is
//! what they say together (`IsBody`), with the number of each item's line (`AreItemLines`). Any other text has one
//! first fault (`IsFirstFault`). The code goes over the lines once: `next_line`, `read_line_with`, and a draft that
//! each line adds to. The canonical text is a function of the body alone (`canonical_text`). That it is read back is
//! shown line by line, through the invariant of the reader's own loop (`Reached`).
#![tactic(auto)]

mod add_line;
mod document;
mod draft;
mod fault;
mod laws;
mod print;
mod read;
mod refusal;
mod version;

pub use dia_lines::{Decl, Limit, Part, RawClock, ReadCode};
pub use document::{Body, Doc, DocLines, RawTask};
pub use fault::ReadFail;
pub use laws::{
    a_document_can_be_printed, an_upgraded_body_can_be_printed, canonical_text_again,
    canonical_text_spells, each_item_has_a_line, one_document, one_first_fault,
};
pub use print::print_doc;
pub use read::read_doc;
pub use version::upgrade;

//! Large documents that `dbp` accepts, one for each seed and size.
//!
//! The document's body is a function of the seed and the size (`generated_body`), by words of SplitMix64 in a fixed
//! order, which docs/LANGUAGE.md has. That its text is accepted is shown from the definitions of reading and checking and
//! by the laws of `trace_io`, not by running them, so out of memory is no way out: no line has a fault, links go to lower
//! ranks or are delayed, the trace section is in plain form, and tasks occur at most 16,000 times.
#![tactic(auto)]

mod document;
mod expressions;
mod laws;
mod names;
mod reads;
mod section;
mod tasks;

pub use document::generate;
pub use laws::generated_documents_are_accepted;

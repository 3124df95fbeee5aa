//! What the tests of several crates begin with: texts, the documents and the plans that they spell, and
//! which steps name what is there.
#![tactic(auto)]

mod inputs;
mod steps;
mod texts;

pub use inputs::{diagram_of, doc_in, plan_in, plan_of};
pub use steps::is_named;
pub use texts::{Document, THREE_RATES, TWO_RATES};

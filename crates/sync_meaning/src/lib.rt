//! The zero-time meaning of a plan: what its tasks compute if no time passes between a release and its outs.
//!
//! `IsMeaning` has equations alone, and says nothing of batches, ranks or an order of evaluation. Row 0 of a task is
//! the first values of its outs. An instance sees its states as the instance before left them; for each sense the last
//! sample at or before its time; for each read row max(0, q - d) of the writer, where q counts the writer's occurrences
//! up to that time and d is the delay; and for each let its value among all these. The values of its outs there are its
//! row. Afterwards a state has the value of its `next`, or stays as it was. Each plan has one such table
//! (`some_meaning`, `one_meaning`), since an instance depends only on rows of an earlier time, or of the same time and
//! a higher rank. `meaning_of` is this table as a function of the plan; the lemmas that it is made from are in
//! `specs/`. The code goes batch by batch, and in each batch by rank.
#![tactic(auto)]

mod env;
mod inputs;
mod instance;
mod laws;
mod ranking;
mod reading;
mod rows;
mod run;

pub use env::{Env, env_of};
pub use instance::work;
pub use laws::{one_meaning, some_meaning, the_meaning_needs_no_ranks};
pub use rows::{first_table, push_row};
pub use run::mean;

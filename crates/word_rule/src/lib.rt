//! The words that the parties of a run share, without locks: each call is one atomic step on one word, and between any
//! two steps words and seats show a sound state of the protocol.
//!
//! The words are a table of the kit (`atomic_table`), in which each party has a seat with a view: what the party knows,
//! as a value that contracts alone see. The rule of the table (`Keeps`) is that words and views show some sound state,
//! so it holds between any two steps of any parties. Each call of `SlotWords` is a use of one of two laws, for a step
//! that loads and for one that stores. Its condition is that the seat's own part allows the step: so no aim names a
//! slot that a standing claim names. Its play (`Plays`) counts the step and says what it loads, and the table asks the
//! call for both. That the body makes no other access to the table is read off the source. Plays are private: a reader
//! of public clauses knows that a `Started`, a `Ready` and the number of `seen` are never ahead of the words, and that
//! the number in a `Closed` or a `NotYet` isn't the one that is waited for. That it is the one that was loaded is
//! tested (`run_tests`).
#![tactic(auto)]

mod asking;
mod begin;
mod first_words;
mod laws;
mod plays;
mod releaser_calls;
mod seats;
mod task_calls;
mod views;
mod work_calls;

pub use laws::{
    a_step_that_loads_keeps_the_rule, a_step_that_stores_keeps_the_rule, the_rule_has_ten_parts,
};
pub use seats::{Look, Opened, ReleaserSeat, SlotWords, TaskSeat};
pub use views::{Role, SoundWords, View};

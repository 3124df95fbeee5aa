//! The releaser's part of the protocol as a machine of its own: which step it makes next, by what it knows alone.
//!
//! A run has no whole state, and its releaser needs none: which step comes next depends on the releaser's part alone. A
//! `Book` holds this part and a wiring under `All`. Its next step (`IsNextStep`) and what the step makes of the part
//! (`part_after`) are definitions over these two. The type keeps that the part is in shape, so no state need be sound,
//! or be there. The laws join the book to whole states: in a sound one the next step is allowed, and the book's part
//! stays that of the state.
#![tactic(auto)]

mod book;
mod laws;
mod next;
mod release_step;

pub use book::Book;
pub use laws::{a_book_follows_its_state, a_next_step_is_allowed, a_part_has_one_next_step};
pub use next::has_finished;
pub use release_step::ReleaseStep;

//! The parties of a run: the releaser and the tasks, each of which makes one atomic step on the shared words a turn.
//!
//! A party is a seat with what goes with it. The releaser's has its book, whose part is the seat's (`Booked`). A task's
//! has its `Work` and its rows, with room for all of them; its type keeps that they are what the meaning gives at its
//! place (`Computed`), so when all have finished the rows are the meaning's table (`table_of`). A turn makes the step at
//! the party's place (`Turns`), and says whether the party waits and for what. Who has a turn when is the caller's: each
//! order of turns leads to the same table. No clause says that parties finish.
#![tactic(auto)]

mod begin;
mod look_up;
mod party;
mod releaser_party;
mod releaser_turns;
mod rows;
mod table;
mod task_party;
mod task_turns;
mod turn;
mod work_turns;

pub use begin::parties;
pub use look_up::wired_of;
pub use party::Party;
pub use releaser_party::ReleaserParty;
pub use table::table_of;
pub use task_party::TaskParty;
pub use turn::{Cause, Turn};

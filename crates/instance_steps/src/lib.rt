//! The pieces of a recorded list of protocol steps: the release of a batch, and of an instance its begin, its reads and
//! its end. What drives a core by virtual time is made of these.
//!
//! A piece is a list of events: steps, with the slot of an aim left open. `Plays` says that steps play events from one
//! state to another: an aim names the least slot that is allowed, each step is allowed, no start finds its gate closed,
//! and no look misses its row. A `Recorder` holds a core, its steps if they are to be kept, and the rows of ended
//! instances. Each call says which events it plays and what it changes: a piece of an instance the task alone
//! (`AddsPiece`), a release the releaser, aims, claims and gates (`ReleasesBatch`). What a piece needs of higher ranks
//! (`MayStep`) depends on ended and aimed numbers, so it lasts through the piece. That the table has the rows of the
//! ended instances (`HasEndedRows`) holds at first, and each end keeps it; in between, a caller carries it.
#![tactic(auto)]

mod instance;
mod laws;
mod recorder;
mod release;

pub use laws::{pieces_go_together, played_steps_are_allowed, rows_of_ended_instances};
pub use recorder::{Keeping, Recorder};

//! What a simulation keeps of time, on any number of processors.
//!
//! A `Run` has what is left of each task's last released instance, the ends so far, and the queue of those that wait.
//! `IsRun` says that it is right: of `Processors`, which say on which processor each task is, whom each serves in each
//! tick, and to which time each has come. These three are in contracts alone. So a jump of several processors is one jump
//! after another: `pause` and `finish` take one processor on, `advance` then sets the time. They ask that on its processor
//! the task's instance alone is served in these ticks (`IsServedFor`); who is chosen, and why, is the caller's to say. A
//! release and a wait ask that all processors have come to the time of the run.
//!
//! What a simulation gives is defined once, over whoever serves each instance and what is left of it (`Outcomes`): its
//! table, its script and its ends, or the overrun that the run finds (`overrun`).
//!
//! Beside the calls stand the words for the protocol in time: the events of one tick on one processor (`Pieces`), a
//! recorder that has played the events so far (`IsRecorded`, under either count), and how many steps there are at most.
#![tactic(auto)]

mod event;
mod outcome;
mod run;
mod sharing;

pub use event::ticks_to_event;
pub use outcome::{SimFail, SimRun};
pub use run::Run;
pub use sharing::shared_copy;

//! The crews that run the parties of a plan, and what they keep of each run.
//!
//! A crew makes the turns of all parties (`party_turns`) until they have finished. A `ThreadCrew` works in rounds, in each
//! of which a party makes at most 4,096 turns, and none after 64 idle ones in a row. It gives each party a thread for 64
//! rounds; a thread whose party waits sleeps until the bell of the party is rung (`waiting`). On one processor it makes
//! all jobs on one thread, in turn. A `TurnCrew` makes all turns on one thread, in rounds that are drawn from its seed.
//! `Jobs` says what a round of jobs makes of the parties, `Draws` what is drawn. No clause says that parties finish, in
//! which order turns are made, that a pace is called or what it does, that each job has a thread, when a thread sleeps or
//! is woken, or that threads begin together.
#![tactic(auto)]

mod all_parties;
mod bell;
mod concern;
mod crew;
mod crew_entry;
mod draws;
mod job;
mod meeting;
mod meetings;
mod pace;
mod round;
mod runs;
mod thread_crew;
mod turn_crew;
mod waiting;

pub use crew::Crew;
pub use crew_entry::{CrewEntry, TaskEnd};
pub use pace::{FreePace, Pace};
pub use party_turns::{Cause, Party, ReleaserParty, TaskParty, Turn, parties, table_of};
pub use thread_crew::ThreadCrew;
pub use turn_crew::TurnCrew;

//! Response times under service by rank: how long after its release each instance of a task ends at the latest, in
//! whatever phase the tasks are.
//!
//! A window of r ticks holds at most r over the period, rounded up, releases of a periodic task. So a task and the tasks
//! above it ask for at most `request_bound` ticks within it, and a least r that is its own request bound is the task's
//! least response time (`IsResponse`), if it is within the period. Nothing else of the diagram is read: no offset, no
//! end, no sample, no lower task, and no other task's bound. `each_bound_holds_by_itself` is the theorem; its proof goes
//! by the busy periods of `rank_order`, and uses of releases only that those of a task are a period apart.
//!
//! `rta` finds the bounds. From a start that is at most each response time it takes request bounds of request bounds.
//! The start passes over most of these turns: it counts tasks of short periods by their utilization and those of
//! longer ones by their requests.
#![tactic(auto)]

mod analysis;
mod bound;
mod fail;
mod higher;
mod laws;
mod level;

pub use analysis::rta;
pub use bound::Bound;
pub use fail::RtaFail;
pub use higher::period_of;
pub use laws::{
    bounded_tasks_do_not_overrun, bounds_are_kept, each_bound_holds_by_itself, one_bound,
    one_list_of_bounds,
};

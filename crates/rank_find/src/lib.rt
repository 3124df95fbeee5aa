//! Priorities from the links: an order of a diagram's tasks in which each writes before those that read it directly, or
//! the cycle that keeps them from having one.
//!
//! `IsOrder` says the order from the front: at each place stands the first of the free tasks, those whose direct writers
//! all stand before it. Such an order stops short exactly where direct links form a cycle. `IsFirstCycle` says which one
//! is told, over any relation: from the first task that lies on one, a shortest, and of these the first in the order of
//! lists. The proofs on cycles are those of `dbp_plan`.
//!
//! `find` goes over lists of direct writers, which are made once. For the first cycle it measures how many links lead
//! from each task to a start, in rounds, and then goes from the start each time to the nearest task.
//!
//! `ranked_body` writes priorities that fall along an order, so under fixed priorities the tasks are ranked by it.
#![tactic(auto)]

mod body;
mod cycle;
mod distance;
mod fail;
mod finding;
mod laws;
mod links;
mod order;

pub use body::ranked_body;
pub use fail::RankFail;
pub use finding::find;
pub use laws::{
    no_order_of_a_cycle, one_first_cycle, one_order, ranked_bodies_are_ranked_by_their_order,
    some_order,
};

//! Service in virtual time: which instance is served in each tick, when it ends, and the queue of those that wait.
//!
//! `IsService` is a relation on functions from ticks to instances, and knows no queue and no event. What is left of an
//! instance is a parameter of `Waits`, `Late`, `IsOverrun` and `NoOverrun`, so that another service, as that of several
//! processors, is stated in the same words; one processor puts the cost less the ticks served there. `service` is the
//! one service as a function of the plan, for contracts; `each_plan_has_one_service` ties both, so a reader needs the
//! relation alone. Each instance has a key of two numbers (`key_of`), and the smaller key is served first. `Ready`
//! keeps what it holds in this order. `MadeFor` says which diagrams a queue is for: those with as many tasks that give
//! these keys. The crate also has what others prove with: lemmas on served ticks, on what is asked for and served in sums
//! over all instances, and on busy periods.
#![tactic(auto)]

mod held;
mod key;
mod laws;
mod ready;

pub use laws::{
    a_service_has_one_end_of_each_instance, a_service_has_one_overrun, each_instance_ends,
    each_plan_has_one_service,
};
pub use ready::Ready;

//! Service on several processors: which instance each processor serves in each tick.
//!
//! Each task is on the processor of its `cpu`, and each processor serves the first of its own instances that wait,
//! by the words of `rank_order` over what is left on their processors. An instance is blocked while it has come to a
//! direct read of an instance that has something left (`is_blocked`); a processor passes over it. That is a test over
//! counts of served ticks, whatever they are. So the relation (`IsServiceOn`) uses it and so does the function of the plan
//! that shows that there is such a service (`services`), and no definition names a queue, an event or a jump.
//!
//! The laws rest on one fact: the first of all instances that wait is never blocked, since a direct link goes down in
//! rank, and the writer's instance that blocks another was released no later. So where all tasks are on one processor
//! nobody is ever passed over, and where an instance waits some processor serves. Both hold past an overrun too.
//!
//! A simulation (`simulate_cpus`) goes from event to event: the next batch, or the next reads or the end of an instance
//! that is served. `blocking` asks the core whether an instance is blocked, and from "not blocked" follow the rows that
//! it reads (`BlockingReads`). `choice` finds in one pass over one queue whom each processor serves (`Choices`). Until the
//! next event each serves whom it serves now (`ProcessorJump`), and what such a jump adds to the record, which is defined
//! tick by tick (`Record`), is said by processor (`RecordTicks`). Inside an event the loops go from processor to
//! processor: first all make the steps of the tick (`HasStepped`), then all serve (`HasServed`); `Simulations` has both.
#![tactic(auto)]

mod blocking;
mod choice;
mod laws;
mod simulation;

pub use laws::{
    a_plan_has_one_outcome_on_its_processors, a_plan_has_one_service_on_its_processors,
    a_processor_passes_over_the_blocked, a_record_on_processors_is_lawful,
    one_processor_serves_as_before, some_processor_serves,
};
pub use simulation::{simulate_cpus, simulate_cpus_shared, simulate_cpus_table_shared};
pub use virtual_time::{SimFail, SimRun};

//! Simulation in virtual time, exact to the tick.
//!
//! The recorded list is defined tick by tick, over any function that says who is served (`IsRecord`); it knows no
//! event, no queue and no state of a simulation. The code goes from event to event. A `Simulation` is a `Run` of
//! `virtual_time`, which has the time, and a `Recorder` of `instance_steps`, whose steps, kept or not, play the events so
//! far. All tasks are on one processor (`one_processor`), which serves the first one of the run's queue: that is the
//! plan's service (`is_choice`), and the first one may step (`may_step`). `IsSimulation` is the run, the recorder and a
//! bound on the length of the list; the public calls are made of one that has come to its end (`IsFinished`). That no tick
//! is walked is tested, since a contract says what is returned and not in how many turns.
#![tactic(auto)]

mod laws;
mod simulation;

pub use laws::{
    a_plan_has_one_outcome, a_record_stands_after_each_batch, a_recorded_list_is_ranked,
    recorded_ends_stand_at_their_times,
};
pub use simulation::{simulate, simulate_shared, simulate_table, simulate_table_shared};
pub use virtual_time::{SimFail, SimRun};

//! The plan of a document, with the samples of its trace and the batches of its tasks; which texts are accepted and
//! which are refused; and the printed lines of a table.
//!
//! `IsPlanOf` says that the trace has no fault, that the plan has the given diagram and the trace's samples, and that
//! its batches are those of its tasks (`AreBatches`). So a document determines its plan. The faults are a list
//! (`trace_faults`): the header's, the rows', and last the `until` line with too many occurrences. `Accepts` puts the
//! relations of reading, checking and this crate together, and `Refuses` has a case for the first fault of each; what a
//! command makes of a document stands on these two. A text has one of both at most (`one_plan`).
//!
//! That there is a plan is no matter of running the code: tasks that don't occur too often have batches
//! (`tasks_have_batches`), so a checked document with a trace section in plain form has a plan
//! (`a_written_trace_makes_a_plan`), and it keeps this plan on other lines (`other_lines_keep_the_plan`).
//!
//! Occurrences are counted by division, and no loop walks ticks. Between two samples of its input a task with a `when`
//! has all base times of its clock, or none; its times are made after all are counted, and handed to the merge as those
//! of one more event, which tasks of one clock and one `when` share (`guards`). A task without a `when` costs the merge
//! what it did. For each batch the merge walks the tasks once (`batches`).
#![tactic(auto)]

mod batches;
mod clocks;
mod code;
mod guards;
mod laws;
mod printed;
mod trace;

pub use code::Code;
pub use guards::{count_on, times_on};
pub use laws::{
    a_written_trace_makes_a_plan, an_upgraded_text_is_accepted,
    another_version_or_script_is_accepted, count_is_exact, one_plan, one_schedule,
    other_lines_keep_the_plan, tasks_have_batches,
};
pub use printed::lines;
pub use trace::read_trace;
pub use trace_rows::{TraceCode, TraceFail};

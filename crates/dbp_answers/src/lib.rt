//! What each command answers to an input: a status, and a text or the line of its refusal or overrun.
//!
//! A command looks at nothing of its input, at the text alone, at the document's shape, or at the plan (`looks`), and
//! that says what it prints: whether it reads, whether it checks the whole document, and which refusals it can have
//! follow from it. `Answers` is one relation of an input, a command, a status and a text; `one_answer` says that there
//! is one at most. What a command makes of a text alone is a function of the document's body, so a further command of
//! this kind is a row of `looks`, and no case of a proof; the same holds of one that prints a function of the plan.
//! What a command refuses of a document besides its faults and its script stands at no line, and is a `CommandCode`.
//!
//! `rank` is the one command that looks at the shape: it writes documents that have no plan yet. `IsRankedText` says that
//! what it writes has one, with ranks by the links and with the input's meaning.
//!
//! In the code the way from an input to its plan is `accepted`, and a `Stop` says why a command makes no text. Commands
//! that run tasks are served above this crate, by a crew: it hands them the plan, the stops' lines and the summary.
#![tactic(auto)]

mod answers;
mod bound_lines;
mod command;
mod command_code;
mod generated;
mod laws;
mod overrun_line;
mod plan;
mod processors;
mod ranking;
mod refusal;
mod scenarios;
mod simulations;
mod slot_lines;
mod status;
mod stop;
mod summaries;

pub use answers::{answer, stop_answer};
pub use command::Command;
pub use command_code::CommandCode;
pub use generated::generated_plan;
pub use laws::{
    a_bounded_input_is_simulated, a_printed_text_is_printed_again, a_recorded_script_is_replayed,
    a_scenario_is_accepted, a_shape_without_a_cycle_is_ranked,
    a_simulation_in_time_writes_the_meaning, an_accepted_input_has_a_scenario,
    an_accepted_input_has_response_times, an_upgraded_text_has_its_plan, one_answer,
    one_processor_answers_as_before,
};
pub use plan::plan_of;
pub use processors::Processors;
pub use refusal::Refusal;
pub use status::Status;
pub use stop::Stop;
pub use summaries::{simulation_line, summary};
